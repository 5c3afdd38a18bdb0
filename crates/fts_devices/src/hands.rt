//! Hands: what each thread of a run works with, over the system's clock.
//! Keeps: there is a hand for each store, in their order, and each has words of the start's moment on the stream of its place, so that no two hands
//! draw the same (`hands_over`, clauses `stores` and `words`).
ghost use Rattle.std.specs.Prelude.{◌≡◌, ℕ, length, map, IfOk};
ghost use Rattle.fts_devices.specs.Hands.{AreOnStreams};

use crate::outside::{PcgWords, SystemClock};
use fts_store::Store;
use fts_tables::{Clock, Memory};
use fts_workers::Hand;
use std::alloc::Global;
use std::rt::Clock as SystemTimes;

/// A hand with the system's clock and words by PCG.
pub type SystemHand<E, R> = Hand<E, SystemClock<R>, PcgWords>;

/// The hands over these stores, in their order, each with the system's clock, and with words of the start's moment on the stream of its place, from 0.
/// An error where memory is wanting.
#[tactic(auto, using(crate::proofs::Streams::on_streams_more))]
pub fn hands_over<E: Store + Drop, R: SystemTimes + Copy>(
    rt: R,
    alloc: Global,
    stores: Vec<E>,
) -> Result<Vec<SystemHand<E, R>>, Memory>
    ensures count { IfOk result (λ hands. length hands.items ≡ length stores.items) }
    ensures stores { IfOk result (λ hands. map (λ hand. hand.store) hands.items ≡ stores.items) }
    ensures words { IfOk result (λ hands. (moment : ℕ) × AreOnStreams moment 0 (map (λ hand. hand.words) hands.items)) }
{
    let moment = SystemClock::new(rt).now();
    let mut hands = Vec::new(alloc);
    for store in stores {
        let hand = Hand {
            store,
            clock: SystemClock::new(rt),
            words: PcgWords::new(moment, hands.len() as u64),
        };
        if hands.push(hand).is_err() {
            return Err(Memory);
        }
    }
    Ok(hands)
}
