//! Sets, lists and lots: one call of each with ample memory.

ghost use Rattle.std.specs.Prelude.{◌≡◌, []};

use league_core::{ClubSet, Listing, Lots, Name, RoomyList};
use std::alloc::Global;
use std::test::Fail;

#[test]
fn sets_are_joined_cut_and_counted(rt: HostRuntime) -> Result<(), Fail> {
    let some = ClubSet::single(2).union(ClubSet::single(31));
    assert_eq!(rt; some.len(), 2);
    assert_eq!(rt; some.first_club(), 2);
    assert!(rt; some.intersection(ClubSet::first(24)) == ClubSet::single(2));
    assert!(rt; some.others(3) == ClubSet::first(2));
    assert_eq!(rt; ClubSet::first(32).len(), 32);
    Ok(())
}

#[test]
fn a_walk_comes_to_each_club_of_a_set_once(rt: HostRuntime) -> Result<(), Fail> {
    let mut clubs = ClubSet::single(31).union(ClubSet::single(2)).clubs();
    assert_eq!(rt; clubs.next(), Some(2));
    assert_eq!(rt; clubs.next(), Some(31));
    assert_eq!(rt; clubs.next(), None);
    Ok(())
}

/// What is taken off a list in turn, and whether nothing is left of it but in its copy.
type Taken = (Option<i32>, Option<i32>, bool);

fn taken(list: &mut Listing<i32>, copy: &Listing<i32>) -> Taken {
    let (first, second) = (list.pop(), list.pop());
    let is_left = list.is_empty() && copy.as_slice() == [7].as_slice();
    (first, second, is_left)
}

fn taken_beside_copy(alloc: Global, list: &mut Listing<i32>) -> Result<Taken, Fail> {
    list.push(7)?;
    let copy = list.copy(alloc)?;
    Ok(taken(list, &copy))
}

fn seven_taken(alloc: Global) -> Result<Taken, Fail> {
    let mut list = Listing::new(alloc);
    taken_beside_copy(alloc, &mut list)
}

#[test]
fn a_copy_of_a_list_goes_its_own_way(rt: HostRuntime) -> Result<(), Fail> {
    let (first, second, is_left) = seven_taken(rt.alloc())?;
    assert_eq!(rt; first, Some(7));
    assert_eq!(rt; second, None);
    assert!(rt; is_left);
    Ok(())
}

fn vec_of_seven(alloc: Global) -> Result<Vec<i32>, Fail> {
    let mut list = Listing::new(alloc);
    list.push(7)?;
    Ok(list.into_vec())
}

#[test]
fn a_list_and_a_name_give_back_what_they_hold(rt: HostRuntime) -> Result<(), Fail> {
    assert!(rt; vec_of_seven(rt.alloc())?.as_slice() == [7].as_slice());
    let name = Name::new(String::from_str(rt.alloc(), "Alder")?);
    assert!(rt; name.into_string().as_str() == "Alder");
    Ok(())
}

fn is_copied(alloc: Global, name: &Name) -> Result<bool, Fail> {
    let copy = name.copy(alloc)?;
    Ok(copy.as_str() == "Alder")
}

fn alder_is_copied(alloc: Global) -> Result<bool, Fail> {
    let name = Name::new(String::from_str(alloc, "Alder")?);
    is_copied(alloc, &name)
}

#[test]
fn a_name_is_copied(rt: HostRuntime) -> Result<(), Fail> {
    assert!(rt; alder_is_copied(rt.alloc())?);
    Ok(())
}

/// Whether there is room for what was asked; whether three items are in order; the three that are
/// replaced, removed and taken off the end; and whether one is left with room for the others.
type Filled = (bool, bool, [char; 3], bool);

fn filled(list: &mut RoomyList<char>) -> Result<Filled, Fail>
    requires { list.old.items ≡ [] }
{
    list.reserve(3)?;
    let has_room = list.room() >= 3;
    list.push('a');
    list.push('c');
    list.insert(1, 'b');
    let is_in_order = list.as_slice() == ['a', 'b', 'c'].as_slice();
    let out = [list.replace(0, 'd'), list.remove(1), list.pop()];
    let is_left = list.len() == 1 && list.room() >= 2;
    Ok((has_room, is_in_order, out, is_left))
}

fn empty_filled(alloc: Global) -> Result<Filled, Fail> {
    let mut list = RoomyList::new(alloc);
    filled(&mut list)
}

#[test]
fn what_has_room_goes_in(rt: HostRuntime) -> Result<(), Fail> {
    let (has_room, is_in_order, [replaced, removed, last], is_left) = empty_filled(rt.alloc())?;
    assert!(rt; has_room);
    assert!(rt; is_in_order);
    assert_eq!(rt; replaced, 'a');
    assert_eq!(rt; removed, 'b');
    assert_eq!(rt; last, 'c');
    assert!(rt; is_left);
    Ok(())
}

// Whether an order of clubs makes lots, which have it then.
fn are_lots(alloc: Global, order: &[u8]) -> Result<bool, Fail> {
    let lots = Lots::new(order.to_vec(alloc)?);
    Ok(have_order(&lots, order))
}

fn have_order(lots: &Result<Lots, Vec<u8>>, order: &[u8]) -> bool {
    match lots {
        Ok(lots) => lots.order() == order,
        Err(_) => false,
    }
}

#[test]
fn lots_name_each_club_once(rt: HostRuntime) -> Result<(), Fail> {
    assert!(rt; are_lots(rt.alloc(), &[2, 0, 1])?);
    assert!(rt; !are_lots(rt.alloc(), &[0, 0, 1])?);
    assert!(rt; !are_lots(rt.alloc(), &[0, 1, 3])?);
    Ok(())
}
