//! Passes made and taken in at once: that both calls succeed with ample memory.
//! The value is a list of the numbers that its items name.
ghost use Rattle.std.specs.Prelude.{[], IfOk, ◌≡◌};
ghost use Rattle.fts_turnstile.specs.Passes.{first_pass};

use fts_passes::{close_with, split_passes};
use fts_turnstile::{Logged, Turnstile};
use std::test::Fail;

#[derive(Drop)]
struct Numbers {
    added: Vec<u32>,
}

impl Logged for Numbers {
    type Item = u32;

    ghost items = { λ numbers. numbers.added.items };

    ghost names = { λ item. item };

    ghost shows = { λ numbers. [] };
}

#[test]
fn sixteen_passes_are_made_and_taken_in(rt: HostRuntime) -> Result<(), Fail> {
    let alloc = rt.alloc();
    let numbers = Numbers {
        added: Vec::new(alloc),
    };
    let Ok((lock, mut first)) = Turnstile::new(alloc, numbers) else {
        return Err(Fail::new("no lock"));
    };
    let Ok(passes) = split_passes(alloc, &lock, &mut first, 16) else {
        return Err(Fail::new("no passes"));
    };
    assert!(rt; passes.len() == 16, "sixteen passes are made");
    let numbers = close_with(lock, first, passes);
    assert!(rt; numbers.added.is_empty(), "none of them added a number");
    Ok(())
}
