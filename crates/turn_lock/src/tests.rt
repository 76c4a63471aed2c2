ghost use Rattle.std.specs.Prelude.{◌≡◌, ◌+◌, ◌%◌, ◌^◌};
ghost use Rattle.turn_lock.specs.Numbers.{SameNumbers};
ghost use Rattle.turn_lock.specs.Seats.{IsOf, known, seats_of};

use super::*;
use std::alloc::{AllocError, Global};
use std::process::Abort;
use std::sync::atomic::AtomicBool;
use std::sync::atomic::Ordering::SeqCst;
use std::sync::{Arc, Wait};
use std::test::Fail;
use std::thread::{Threads, join, yield_now};

/// A running total, which replies with what it was.
#[derive(Drop)]
struct Tally {
    total: u64,
}

impl Machine for Tally {
    type Cmd = u64;

    type Reply = u64;

    type State = u64;

    ghost state = { λ m. m.total };

    ghost reply = { λ total n. total };

    ghost after = { λ total n. (total + n) % 2 ^ 64 };

    fn copy(cmd: &u64) -> Result<u64, AllocError> {
        Ok(*cmd)
    }

    fn step(&mut self, cmd: &u64) -> Result<(u64, u64), AllocError> {
        let before = self.total;
        self.total = before.wrapping_add(*cmd);
        Ok((before, before))
    }
}

#[test]
fn two_seats_fill_one_journal(rt: HostRuntime) -> Result<(), Fail> {
    let (lock, mut first) = TurnLock::new(rt.alloc(), Tally { total: 5 }, 2, 2)?;
    let entry = lock.call(&rt, &mut first, &3)?;
    assert_eq!(rt;
        (entry.number, entry.caller, entry.cmd, entry.reply),
        (1, 0, 3, 5)
    );
    let mut second = lock.split(&mut first);
    assert_eq!(rt; (first.left(), second.number()), (0, 1));
    let entry = lock.try_call(&mut second, &4)?;
    assert_eq!(rt;
        (entry.number, entry.caller, entry.cmd, entry.reply),
        (2, 1, 4, 8)
    );
    assert!(rt; is_full(&lock.call(&rt, &mut second, &1)));
    assert!(rt;
        matches!(
            lock.try_call(&mut second, &1),
            Err(TryFault::JournalFull(2))
        )
    );
    assert_eq!(rt; lock.count(&mut second), 2);
    Ok(())
}

/// Whether a journal of two entries refused the call.
fn is_full(answer: &Result<Entry<Tally>, CallFault>) -> bool {
    matches!(answer, Err(CallFault::JournalFull(2)))
}

/// What a machine that waits shares with the thread that it waits for.
#[derive(Drop)]
struct Signals {
    entered: AtomicBool,
    go: AtomicBool,
    gave_up: AtomicBool,
}

/// A machine whose step waits for a signal, for so many turns of its loop, and then lets other threads go first.
#[derive(Drop)]
struct Patient {
    signals: Arc<Signals, Global>,
}

impl Machine for Patient {
    type Cmd = u64;

    type Reply = u64;

    type State = ();

    ghost state = { λ _. tt };

    ghost reply = { λ _ n. n };

    ghost after = { λ s _. s };

    fn copy(cmd: &u64) -> Result<u64, AllocError> {
        Ok(*cmd)
    }

    fn step(&mut self, cmd: &u64) -> Result<(u64, u64), AllocError> {
        self.signals.entered.store(true, SeqCst);
        for _ in 0..100_000_000u64 {
            if self.signals.go.load(SeqCst) {
                for _ in 0..10_000 {
                    yield_now();
                }
                return Ok((*cmd, *cmd));
            }
        }
        self.signals.gave_up.store(true, SeqCst);
        Ok((*cmd, *cmd))
    }
}

/// Tries once while the other seat's step waits, lets it go, and calls while that seat still has the turn.
fn knock<R: Wait>(
    rt: &R,
    lock: &TurnLock<Patient>,
    mut seat: Seat<Patient>,
    signals: &Signals,
) -> (bool, u32)
    requires { IsOf lock.now seat }
{
    for _ in 0..100_000_000u64 {
        if signals.entered.load(SeqCst) {
            break;
        }
    }
    let held = matches!(lock.try_call(&mut seat, &2), Err(TryFault::Held(1)));
    signals.go.store(true, SeqCst);
    (held, number_of(lock.call(rt, &mut seat, &2)))
}

/// Calls once, and answers the entry's number.
fn call_one<R: Wait>(rt: &R, lock: &TurnLock<Patient>, mut seat: Seat<Patient>) -> u32
    requires { IsOf lock.now seat }
{
    number_of(lock.call(rt, &mut seat, &1))
}

/// One seat calls, and the other knocks at it.
fn both_call<R: Threads + Wait + Sync>(
    rt: &R,
    lock: &TurnLock<Patient>,
    first: Seat<Patient>,
    second: Seat<Patient>,
    signals: &Signals,
) -> ((bool, u32), u32)
    requires { IsOf lock.now first × IsOf lock.now second }
{
    join(
        rt,
        || -> (bool, u32)
            requires { IsOf lock.now second }
        { knock(rt, lock, second, signals) },
        || -> u32
            requires { IsOf lock.now first }
        { call_one(rt, lock, first) },
    )
}

#[test]
fn a_held_turn_is_found_by_a_try_and_waited_for_by_a_call(rt: HostRuntime) -> Result<(), Fail> {
    let signals = Arc::new(
        rt.alloc(),
        Signals {
            entered: AtomicBool::new(false),
            go: AtomicBool::new(false),
            gave_up: AtomicBool::new(false),
        },
    )?;
    let machine = Patient {
        signals: Arc::try_clone(&signals)?,
    };
    let (lock, mut first) = TurnLock::new(rt.alloc(), machine, 2, 10)?;
    let second = lock.split(&mut first);
    let ((held, later), number) = both_call(&rt, &lock, first, second, &signals);
    assert!(rt; held);
    assert_eq!(rt; (number, later), (1, 2));
    assert!(rt; !signals.gave_up.load(SeqCst));
    Ok(())
}

/// The number of an entry, or 0 for a refusal.
fn number_of(answer: Result<Entry<Patient>, CallFault>) -> u32 {
    match answer {
        Ok(entry) => entry.number,
        Err(_) => 0,
    }
}

const CALLS: u64 = 1000;

/// Adds the numbers below `CALLS`, each with the caller's mark: by a try, and where the turn is held by a call.
fn add_all<R: Wait>(rt: &R, lock: &TurnLock<Tally>, mut seat: Seat<Tally>) -> Seat<Tally>
    requires { IsOf lock.now seat }
    ensures { IsOf lock.now result × SameNumbers (known seat) (known result) }
{
    let mark = u64::from(seat.number());
    for n in 0..CALLS {
        let marked = mark * 1_000_000 + n;
        if let Err(TryFault::Held(_)) = lock.try_call(&mut seat, &marked) {
            let _ = lock.call(rt, &mut seat, &marked);
        }
    }
    seat
}

/// Two callers at once.
fn add_both<R: Threads + Wait + Sync>(
    rt: &R,
    lock: &TurnLock<Tally>,
    one: Seat<Tally>,
    two: Seat<Tally>,
) -> (Seat<Tally>, Seat<Tally>)
    requires { IsOf lock.now one × IsOf lock.now two }
    ensures one { IsOf lock.now result.0 × SameNumbers (known one) (known result.0) }
    ensures two { IsOf lock.now result.1 × SameNumbers (known two) (known result.1) }
{
    join(
        rt,
        || -> Seat<Tally>
            requires { IsOf lock.now one }
            ensures { IsOf lock.entry.now result × SameNumbers (known one) (known result) }
        { add_all(rt, lock, one) },
        || -> Seat<Tally>
            requires { IsOf lock.now two }
            ensures { IsOf lock.entry.now result × SameNumbers (known two) (known result) }
        { add_all(rt, lock, two) },
    )
}

/// Whether the journal has each caller's calls once and in order, each reply is the total before it, and the machine has
/// the last one.
fn is_whole(booked: &Booked<Tally>) -> bool {
    let journal = booked.journal();
    let mut total = 0u64;
    let mut next = [0u64; 4];
    for (at, entry) in journal.iter().enumerate() {
        let caller = entry.caller as usize;
        if entry.number as usize != at + 1 || entry.reply != total || caller >= 4 {
            return false;
        }
        if entry.cmd != (caller as u64 * 1_000_000).wrapping_add(next[caller]) {
            return false;
        }
        next[caller] = next[caller].wrapping_add(1);
        total = total.wrapping_add(entry.cmd);
    }
    booked.machine().total == total && journal.len() as u64 == 4 * CALLS
}

/// Joins four seats and closes the lock.
fn close_all(
    lock: TurnLock<Tally>,
    mut zero: Seat<Tally>,
    one: Seat<Tally>,
    two: Seat<Tally>,
    three: Seat<Tally>,
) -> Booked<Tally>
    requires seats { (seats_of lock ≡ 4) × IsOf lock zero × IsOf lock one × IsOf lock two × IsOf lock three }
    requires numbers { ((known zero).number ≡ 0) × ((known one).number ≡ 1) × ((known two).number ≡ 2) × ((known three).number ≡ 3) }
{
    lock.join(&mut zero, one);
    lock.join(&mut zero, two);
    lock.join(&mut zero, three);
    lock.close(zero)
}

#[test]
fn four_threads_make_one_history(rt: HostRuntime) -> Result<(), Fail> {
    let (lock, mut zero) = TurnLock::new(rt.alloc(), Tally { total: 0 }, 4, 1_000_000)?;
    let three = lock.split(&mut zero);
    let two = lock.split(&mut zero);
    let one = lock.split(&mut zero);
    let ((zero, one), (two, three)) = join(
        &rt,
        || add_both(&rt, &lock, zero, one),
        || add_both(&rt, &lock, two, three),
    );
    let booked = close_all(lock, zero, one, two, three);
    assert!(rt; is_whole(&booked));
    Ok(())
}
