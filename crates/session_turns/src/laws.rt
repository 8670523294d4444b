//! The law of courses: a function that does nothing.

ghost use Rattle.session_turns.specs.inside.FeedCourses.{CoursesAreOfFeeds};

/// The course that is read line by line is that of the feed that the lines are, where no line asks
/// about a fixture, and no saved text must come before them.
pub fn a_course_is_read_line_by_line()
    ensures { CoursesAreOfFeeds }
{}
