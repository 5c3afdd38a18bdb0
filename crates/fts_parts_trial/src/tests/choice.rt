//! Of `fts_choice`: that the choices are those that operators expect, by rows written by hand.
use super::made::row;
use fts_choice::{LinkChance, draw, next_alternative, next_hop, pick_link};
use fts_tables::{FileState, Strategy};
use std::test::Fail;

/// Which of three activities take part in a draw.
const ALL: [bool; 3] = [true, true, true];

const LAST_TWO: [bool; 3] = [false, true, true];

const NONE: [bool; 3] = [false, false, false];

#[test]
fn a_word_draws_by_its_remainder(rt: HostRuntime) -> Result<(), Fail> {
    let weights = [70, 20, 10];
    for (case, waiting, word, want) in [
        ("the last remainder of the first", ALL, 69, Some(0)),
        ("the first of the second", ALL, 70, Some(1)),
        ("the first of the third", ALL, 90, Some(2)),
        ("the greatest word", ALL, u64::MAX, Some(0)),
        ("remainder 9 of the last two", LAST_TWO, 69, Some(1)),
        ("remainder 29 of the last two", LAST_TWO, 29, Some(2)),
        ("no activity with a file", NONE, 69, None),
    ] {
        let is_drawn = draw(&weights, &waiting, word) == want;
        assert!(rt; is_drawn, "{case}");
    }
    Ok(())
}

#[test]
fn the_next_row_is_one_whose_turn_has_not_come(rt: HostRuntime) -> Result<(), Fail> {
    use FileState::{Failed, Finished, NotUsed};
    for (case, states, auto, orderly, hop) in [
        (
            "no row had its turn",
            [NotUsed, NotUsed, NotUsed],
            Some(1),
            Some(0),
            Some(1),
        ),
        (
            "the third row alone had none",
            [Finished, Failed, NotUsed],
            Some(2),
            Some(2),
            None,
        ),
        (
            "each row had its turn",
            [Failed, Failed, Failed],
            None,
            None,
            None,
        ),
    ] {
        let [first, second, third] = states;
        let rows = [
            row(rt.alloc(), first)?,
            row(rt.alloc(), second)?,
            row(rt.alloc(), third)?,
        ];
        let loads = [2, 0, 0];
        let is_next = next_alternative(&rows, Strategy::Auto, &loads) == auto
            && next_alternative(&rows, Strategy::Orderly, &loads) == orderly
            && next_hop(&rows, 0) == hop
            && next_hop(&rows, 2) == None;
        assert!(rt; is_next, "{case}");
    }
    Ok(())
}

fn chance(held: u32, eligible: bool) -> LinkChance {
    LinkChance { held, eligible }
}

#[test]
fn the_link_that_holds_the_least_goes_first(rt: HostRuntime) -> Result<(), Fail> {
    for (case, chances, want) in [
        (
            "least held",
            [chance(2, true), chance(1, true), chance(1, true)],
            Some(1),
        ),
        (
            "the first of several",
            [chance(1, true), chance(1, true), chance(1, true)],
            Some(0),
        ),
        (
            "eligible ones alone",
            [chance(0, false), chance(3, true), chance(2, false)],
            Some(1),
        ),
        (
            "no eligible one",
            [chance(0, false), chance(0, false), chance(0, false)],
            None,
        ),
    ] {
        let is_picked = pick_link(&chances) == want;
        assert!(rt; is_picked, "{case}");
    }
    assert!(rt; pick_link(&[]) == None, "no link at all");
    Ok(())
}
