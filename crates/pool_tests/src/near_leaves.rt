//! What is decided with near reasons, by hand.
//!
//! X beat C, C beat Y, Z beat X and Y, all 1:0, and Y against Z is open. X and C end on 3 points,
//! Z above them, and Y joins the two if it wins. Either way X is ahead of C, and C of Y, although
//! the criteria alone wait for the open match.

ghost use Rattle.league_core.specs.game.Seasons.{IsLeague};

use answer_rows::put_verdicts;
use decide_run::decide;
use league_core::{Season, Sheet};
use port_core::MemSink;
use sample_leagues::sample_of;
use std::alloc::Global;
use std::test::Fail;

const LEAGUE: &[u8] = b"league,Near,1,7\nclub,C,1\nclub,X,2\nclub,Y,3\nclub,Z,4\nmatch,X,C\n\
    match,C,Y\nmatch,Z,X\nmatch,Z,Y\nmatch,Y,Z\nline,2\nseason\nresult,1,1,0\nresult,2,1,0\n\
    result,3,1,0\nresult,4,1,0\n";

const WORDS: &[u8] =
    b"ask,4\nverdict,2,C,lost\nverdict,2,X,clinched\nverdict,2,Y,lost\nverdict,2,Z,clinched\n";

const PROOFS: &[u8] = b"ask,4\n\
    verdict,2,C,lost\n[\"tree\",\"inside\"]\n[\"split\",\"rival\",4]\n[\"split\",\"rival\",2]\n\
    [\"leaf\",\"count\"]\n[\"leaf\",\"near\",2]\n[\"leaf\",\"low\",[4]]\n\
    verdict,2,X,clinched\n[\"tree\",\"outside\"]\n[\"split\",\"rival\",4]\n\
    [\"split\",\"rival\",1]\n[\"leaf\",\"near\",1]\n[\"split\",\"rival\",3]\n\
    [\"leaf\",\"near\",3]\n[\"leaf\",\"count\"]\n[\"leaf\",\"low\",[4]]\n\
    verdict,2,Y,lost\n[\"tree\",\"inside\"]\n[\"split\",\"rival\",4]\n[\"split\",\"rival\",1]\n\
    [\"leaf\",\"count\"]\n[\"leaf\",\"near\",1]\n[\"leaf\",\"low\",[4]]\n\
    verdict,2,Z,clinched\n[\"tree\",\"outside\"]\n[\"split\",\"rival\",1]\n\
    [\"leaf\",\"high\",[1]]\n[\"split\",\"rival\",2]\n[\"leaf\",\"high\",[2]]\n\
    [\"leaf\",\"count\"]\n";

// Whether the answer is this text.
fn is_answer(
    alloc: Global,
    sheet: &Sheet,
    season: &Season,
    proofs: bool,
    wanted: &[u8],
) -> Result<bool, Fail>
    requires { IsLeague sheet.now season.now }
{
    let all = decide(alloc, sheet, season)?;
    let mut sink = MemSink::new(alloc, 4096, 4096, Vec::new(alloc))?;
    put_verdicts(alloc, proofs, sheet, 4, all.as_slice(), &mut sink).map_err(|_| "stopped")?;
    Ok(sink.bytes() == wanted)
}

// A budget of seven units is enough for each question.
#[test]
fn near_leaves_take_the_place_of_outcomes(rt: HostRuntime) -> Result<(), Fail> {
    let sample = sample_of(rt.alloc(), LEAGUE).ok_or("no league")?;
    for (proofs, wanted) in [(false, WORDS), (true, PROOFS)] {
        let is = is_answer(rt.alloc(), &sample.sheet, &sample.season, proofs, wanted)?;
        assert!(rt; is, "{proofs}");
    }
    Ok(())
}
