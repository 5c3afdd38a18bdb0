//! Of `ordered`: each call with ample memory, on pairs of numbers by hand, and on more pairs than a chunk holds, growing and shrinking.
ghost use Rattle.std.specs.Prelude.{◌≡◌, ◌<◌, ◌≤◌};

use ordered::{Key, Ordered};
use std::alloc::AllocError;
use std::process::Abort;
use std::test::Fail;

/// Two numbers, of which the first decides.
#[derive(Clone, Copy, PartialEq)]
struct Pair {
    one: u32,
    two: u32,
}

impl Key for Pair {
    ghost use Rattle.std.specs.Prelude.{◌≡◌, nat_lt};
    ghost use Rattle.std.proofs.Common.{ap, ◌∙◌};
    ghost use Rattle.ordered.specs.ByNumbers.{is_first_by};
    ghost use Rattle.ordered.proofs.ByNumbers.{by_least, least_then, strict};

    ghost before = { λ pair other. is_first_by pair.one other.one (nat_lt pair.two other.two) };

    fn is_before(&self, other: &Pair) -> bool {
        self.one < other.one || (self.one == other.one && self.two < other.two)
    }

    ghost order = { strict _ (λ pair other. (pair.one ≡ other.one) × (pair.two ≡ other.two))
        (least_then (λ pair. pair.one) (λ pair other. nat_lt pair.two other.two) (λ pair other. pair.two ≡ other.two) (by_least (λ pair. pair.two)))
        (λ pair other same. ap (λ one. record { one = one; two = pair.two }) same.0 ∙ ap (λ two. record { one = other.one; two = two }) same.1) };
}

fn make_pair(one: u32, two: u32) -> Pair
    ensures { result ≡ record { one = one; two = two } }
{
    Pair { one, two }
}

const FIRST: Pair = Pair { one: 1, two: 9 };

const SECOND: Pair = Pair { one: 2, two: 0 };

const LAST: Pair = Pair { one: 2, two: 1 };

/// A sentence, the numbers of a pair, the first from it on, and the next behind it.
type PairCase = (&'static str, (u32, u32), Option<Pair>, Option<Pair>);

/// Looks among these three.
const LOOKS: [PairCase; 5] = [
    ("in front of all", (0, 10), Some(FIRST), Some(FIRST)),
    ("the first itself", (1, 9), Some(FIRST), Some(SECOND)),
    ("one that isn't there", (1, 10), Some(SECOND), Some(SECOND)),
    ("the last itself", (2, 1), Some(LAST), None),
    ("behind all", (2, 2), None, None),
];

#[test]
fn pairs_stand_in_their_order(rt: HostRuntime) -> Result<(), Fail> {
    let mut set: Ordered<Pair> = Ordered::new(rt.alloc());
    assert!(rt; set.first().is_none() && set.len() == 0, "no pair");
    set.make_room(3)?;
    set.insert(make_pair(2, 1));
    set.insert(make_pair(1, 9));
    set.insert(make_pair(2, 0));
    for (case, (one, two), from, next) in LOOKS {
        let key = make_pair(one, two);
        assert!(rt; set.first_from(&key) == from, "{case}");
        assert!(rt; set.next_after(&key) == next, "behind: {case}");
    }
    set.remove(&make_pair(2, 0));
    assert!(rt;
        set.len() == 2 && !set.has(&make_pair(2, 0)) && set.has(&make_pair(2, 1)),
        "one less"
    );
    Ok(())
}

#[test]
fn a_pair_that_goes_tells_the_next(rt: HostRuntime) -> Result<(), Fail> {
    let mut set: Ordered<Pair> = Ordered::new(rt.alloc());
    assert!(rt; !set.take(&FIRST), "no pair");
    set.make_room(2)?;
    set.insert(FIRST);
    assert!(rt;
        !set.take(&SECOND) && set.len() == 1,
        "one that isn't there"
    );
    assert!(rt; set.take_next(&FIRST).is_none(), "none is behind the last");
    set.insert(LAST);
    assert!(rt; set.take(&LAST) && set.len() == 0, "one that is there");
    set.insert(FIRST);
    set.insert(LAST);
    assert!(rt;
        set.take_next(&FIRST) == Some(LAST) && set.len() == 1,
        "the next"
    );
    Ok(())
}

#[test]
fn a_pair_that_comes_tells_the_one_in_front(rt: HostRuntime) -> Result<(), Fail> {
    let mut set: Ordered<Pair> = Ordered::new(rt.alloc());
    set.make_room(3)?;
    assert!(rt; set.insert_behind(SECOND).is_none(), "it stands alone");
    assert!(rt; set.insert_behind(FIRST).is_none(), "in front of all");
    assert!(rt; set.insert_behind(LAST) == Some(SECOND), "behind all");
    Ok(())
}

/// How many pairs there are in the large set.
const MANY: u32 = 1200;

/// A pair of the large set, in order of the numbers from 1 on.
fn pair_of(number: u32) -> Pair {
    make_pair(number / 16, number % 16)
}

/// The pairs of these numbers are there, one behind the other, and no others.
fn are_there(rt: &impl Abort, set: &Ordered<Pair>, step: u32)
    requires { 0 < step }
{
    let mut last = pair_of(0);
    for number in 1..=MANY {
        if number % step == 0 {
            let is_next = set.next_after(&last) == Some(pair_of(number));
            assert!(rt;
                is_next && set.has(&pair_of(number)),
                "pair {number} of each {step}"
            );
            last = pair_of(number);
        }
    }
    assert!(rt; set.next_after(&last).is_none(), "the last of each {step}");
}

#[test]
fn more_pairs_than_a_chunk_holds_come_and_go(rt: HostRuntime) -> Result<(), Fail> {
    let mut set: Ordered<Pair> = Ordered::new(rt.alloc());
    for step in 1..=MANY {
        let key = pair_of(step * 7919 % 1201);
        let more = set.len().checked_add(1).expect(&rt, "few pairs");
        set.make_room(more)?;
        if !set.has(&key) {
            set.insert(key);
        }
    }
    are_there(&rt, &set, 1);
    for step in 1..=MANY {
        let number = step * 7919 % 1201;
        let key = pair_of(number);
        if number % 100 > 0 {
            let is_there = set.has(&key);
            assert!(rt; set.take(&key) == is_there, "pair {number} goes");
        }
    }
    are_there(&rt, &set, 100);
    Ok(())
}

/// Puts a pair in, and says whether it was told the pair of another number, which stands in front.
fn comes_behind(set: &mut Ordered<Pair>, number: u32, front: u32) -> Result<bool, AllocError> {
    let Some(more) = set.len().checked_add(1) else {
        return Ok(false);
    };
    set.make_room(more)?;
    let key = pair_of(number);
    if set.has(&key) {
        return Ok(false);
    }
    Ok(set.insert_behind(key) == Some(pair_of(front)))
}

/// Each second pair comes in, from this one on, behind the pair of an even number.
fn come_in(rt: &impl Abort, set: &mut Ordered<Pair>, first: u32) -> Result<(), AllocError>
    requires { first ≤ 2 }
{
    for half in 0..MANY / 2 {
        let number = 2 * half + first;
        let is_told = comes_behind(set, number, 2 * half)?;
        assert!(rt; is_told, "pair {number}");
    }
    Ok(())
}

#[test]
fn each_of_many_pairs_tells_the_one_in_front(rt: HostRuntime) -> Result<(), Fail> {
    let mut set: Ordered<Pair> = Ordered::new(rt.alloc());
    set.make_room(1)?;
    set.insert(pair_of(0));
    come_in(&rt, &mut set, 2)?;
    come_in(&rt, &mut set, 1)?;
    are_there(&rt, &set, 1);
    Ok(())
}
