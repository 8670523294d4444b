//! The word of the epoch by hand: a score of 1:0 in the first match, its annulment, and two points
//! taken off the first club. The numbers are worked out from the table of codes.

ghost use Rattle.std.specs.Prelude.{◌≡◌, []};

use epoch_cancel::{EpochWord, Eye, Front, Owner, cancelled, look, pack, seen, tell};
use league_core::{Event, Score};
use std::alloc::Global;
use std::test::Fail;
use std::thread;

const WON: Event = Event::Set {
    fixture: 0,
    score: Score { home: 1, away: 0 },
};

const ANNULLED: Event = Event::Clear { fixture: 0 };

const FINED: Event = Event::Deduct { club: 0, points: 2 };

// The epoch and the code of a word.
fn halves(word: u64) -> (u64, u64) {
    (word >> 32, word & 0xffff_ffff)
}

#[test]
fn words_are_those_of_the_table(rt: HostRuntime) -> Result<(), Fail> {
    let found = [
        halves(pack(&[])),
        halves(pack(&[WON])),
        halves(pack(&[WON, ANNULLED])),
        halves(pack(&[WON, ANNULLED, FINED])),
        halves(pack(&[FINED])),
    ];
    let wanted = [
        (0, 0),
        (1, 101),
        (2, 8_000_000),
        (3, 9_000_002),
        (1, 9_000_002),
    ];
    assert!(rt; found == wanted);
    Ok(())
}

// The epochs before and after each of two events, as a worker finds them.
type Epochs = (u64, u64, u64);

// Whether work of epoch 1 and of epoch 2 is out of date at the end, and by which epoch.
type Overtaken = (Option<u64>, Option<u64>);

// What a worker finds, and the word at the end.
fn find_epochs(alloc: Global) -> Result<(Epochs, Overtaken, u64), Fail> {
    let (word, mut owner, mut front, mut eyes) = EpochWord::new(alloc, &[], 1)?;
    let mut eye = eyes.pop().ok_or("no eye")?;
    let before = look(&word, &mut eye);
    tell(&word, &mut owner, &mut front, &WON);
    let first = look(&word, &mut eye);
    tell(&word, &mut owner, &mut front, &ANNULLED);
    let second = look(&word, &mut eye);
    let overtaken = (cancelled(&word, &mut eye, 1), cancelled(&word, &mut eye, 2));
    seen(&word, &mut owner, &mut eye);
    Ok(((before, first, second), overtaken, word.close(owner, front)))
}

#[test]
fn a_worker_finds_each_epoch(rt: HostRuntime) -> Result<(), Fail> {
    let (epochs, overtaken, word) = find_epochs(rt.alloc())?;
    assert!(rt; epochs == (0, 1, 2));
    assert!(rt; overtaken == (Some(2), None));
    assert!(rt; halves(word) == (2, 8_000_000));
    Ok(())
}

// Reports a result 500 times.
fn tell_all(word: &EpochWord, mut owner: Owner, mut front: Front) -> (Owner, Front)
    requires seats { (owner.table ≡ word.now) × (front.table ≡ word.now) }
    requires empty { (owner.list ≡ []) × (front.list ≡ []) }
    ensures seats { (result.0.table ≡ word.now) × (result.1.table ≡ word.now) }
{
    for _ in 0..500u16 {
        tell(word, &mut owner, &mut front, &WON);
    }
    (owner, front)
}

// Looks 1,000 times.
fn look_often(word: &EpochWord, mut eye: Eye) -> (u64, Eye)
    requires seat { eye.table ≡ word.now }
    ensures seat { result.1.table ≡ word.now }
{
    let mut newest = 0;
    for _ in 0..1_000u16 {
        newest = look(word, &mut eye);
    }
    (newest, eye)
}

#[test]
fn one_thread_tells_while_another_looks(rt: HostRuntime) -> Result<(), Fail> {
    let (word, owner, front, mut eyes) = EpochWord::new(rt.alloc(), &[], 1)?;
    let eye = eyes.pop().ok_or("no eye")?;
    let shared = &word;
    let ((owner, front), (found, mut eye)) = thread::join(
        &rt,
        move ||
            requires { (owner.table ≡ shared.now) × (front.table ≡ shared.now)
                × (owner.list ≡ []) × (front.list ≡ []) }
            ensures { (result.0.table ≡ shared.entry.now) × (result.1.table ≡ shared.entry.now) }
        { tell_all(shared, owner, front) },
        move ||
            requires { eye.table ≡ shared.now }
            ensures { result.1.table ≡ shared.entry.now }
        { look_often(shared, eye) },
    );
    let newest = look(&word, &mut eye);
    let word = word.close(owner, front);
    assert!(rt; found <= 500, "{found}");
    assert_eq!(rt; (newest, halves(word)), (500, (500, 101)));
    Ok(())
}
