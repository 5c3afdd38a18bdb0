//! The draw of an activity by the weights of those that take part.
ghost use Rattle.std.specs.Prelude.{◌≡◌, ◌<◌, ◌≤◌, ◌↔◌, ℕ, List, Bool, false, All, None, IfSome, IsTrue, IsFalse, sum, length, count_by, get_or};
ghost use Rattle.std.specs.List.{range_with_len, list_any};
ghost use Rattle.fts_tables.specs.SettingsData.{is_within};
ghost use Rattle.fts_tables.specs.Choice.{draw, shares};
ghost use Rattle.fts_tables.specs.declared.limits.TheConstants.{MAX_WEIGHT, MAX_WEIGHTS};
ghost use Rattle.fts_choice.specs.Draws.{first_above, draws};

/// The sum of the weights that take part.
fn total(weights: &[u32], waiting: &[bool]) -> u64
    requires alike { length weights.now ≡ length waiting.now }
    requires few { length weights.now ≤ MAX_WEIGHTS }
    ensures total { result ≡ sum (shares weights.now waiting.now) }
{
    let mut total: u64 = 0;
    for place in 0..weights.len() {
        if waiting[place] {
            total += u64::from(weights[place]);
        }
    }
    total
}

/// The first place whose running sum is above a number.
fn place_above(weights: &[u32], waiting: &[bool], number: u64) -> Option<usize>
    requires alike { length weights.now ≡ length waiting.now }
    requires few { length weights.now ≤ MAX_WEIGHTS }
    ensures place { result ≡ first_above number 0 (shares weights.now waiting.now) }
    ensures inside { IfSome result (λ place. place < length weights.now) }
{
    let mut running: u64 = 0;
    for place in 0..weights.len() {
        if waiting[place] {
            running += u64::from(weights[place]);
            if number < running {
                return Some(place);
            }
        }
    }
    None
}

/// The place of the activity that a word draws, among those of which a file waits: the first whose running sum is above the word's remainder
/// by the sum of their weights. None exactly where no file waits.
pub fn draw(weights: &[u32], waiting: &[bool], word: u64) -> Option<usize>
    requires alike { length weights.now ≡ length waiting.now }
    requires few { length weights.now ≤ MAX_WEIGHTS }
    requires range { All (λ weight. IsTrue (is_within 1 MAX_WEIGHT weight)) weights.now }
    ensures place { result ≡ draw weights.now waiting.now word }
    ensures none { (result ≡ None) ↔ IsFalse (list_any (λ waits. waits) waiting.now) }
    ensures inside { IfSome result (λ place. place < length weights.now) }
{
    let total = total(weights, waiting);
    if total == 0 {
        return None;
    }
    place_above(weights, waiting, word % total)
}

/// The law of the draw: of the numbers below the sum of the weights that take part, as many draw a place as its weight says where it takes part, else none.
pub fn draws_by_weight()
    ensures share { (weights : List ℕ) (waiting : List Bool) (place : ℕ)
        → count_by (draws weights waiting place) (range_with_len 0 (sum (shares weights waiting))) ≡ get_or (shares weights waiting) place 0 }
    ensures weight { (weights : List ℕ) (waiting : List Bool) (place : ℕ) → length weights ≡ length waiting → IsTrue (get_or waiting place false)
        → count_by (draws weights waiting place) (range_with_len 0 (sum (shares weights waiting))) ≡ get_or weights place 0 }
{}
