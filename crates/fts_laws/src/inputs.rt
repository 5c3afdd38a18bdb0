//! The laws of framing: which requests an input has and how it ends, and what of that is known where the input is cut.
//! Each request that stood whole before the cut is as it was, in its order. An end that more bytes can't change, as a fault of the
//! framing, is the same too. So no request hangs on what comes behind it.
//! A law is a function without parameters that does nothing: its clauses speak of every input. Who reasons over inputs calls it.
ghost use Rattle.std.specs.Prelude.{◌≡◌, ℕ, true, List, ◌++◌, is_some};
ghost use Rattle.fts_wire.specs.Faults.{status_of};
ghost use Rattle.fts_wire.specs.RequestData.{RequestData};
ghost use Rattle.fts_wire.specs.Requests.{next_of, Refuses, Asks};
ghost use Rattle.fts_wire.specs.declared.fault.WireFault.{WireFault};
ghost use Rattle.fts_laws.specs.Inputs.{Input, input_of, Refused, Begins, IsSettled};
ghost use Rattle.fts_laws.specs.Ends.{Stands};

/// Over every input, and with more behind it, where at most `most` requests are read of either. The requests of the input are the first
/// ones of the longer input; where its end is a fault, a request that says close, or that number, requests and end are the same.
/// Of what comes first alone: a request stays, with more behind it, and so does what is refused.
pub fn cut_inputs_keep_their_requests()
    ensures first { (bytes more rest : List ℕ) (request : RequestData) → next_of bytes ≡ Asks request rest
        → next_of (bytes ++ more) ≡ Asks request (rest ++ more) }
    ensures refused { (bytes more : List ℕ) (fault : WireFault) → next_of bytes ≡ Refuses fault → next_of (bytes ++ more) ≡ Refuses fault }
    ensures prefix { (most : ℕ) (bytes more : List ℕ) → Begins (input_of most bytes).requests (input_of most (bytes ++ more)).requests }
    ensures settled { (most : ℕ) (bytes more : List ℕ) → IsSettled (input_of most bytes).end
        → input_of most (bytes ++ more) ≡ input_of most bytes }
{}

/// The requests of an input stand in its bytes one after another, and its end says what is behind them; what stands so is the input, and
/// nothing else is. A fault that ends it is one that has a response.
pub fn inputs_are_their_requests()
    ensures stands { (most : ℕ) (bytes : List ℕ) → Stands most bytes (input_of most bytes) }
    ensures alone { (most : ℕ) (bytes : List ℕ) (input : Input) → Stands most bytes input → input_of most bytes ≡ input }
    ensures answered { (most : ℕ) (bytes : List ℕ) (fault : WireFault) → (input_of most bytes).end ≡ Refused fault
        → is_some (status_of fault) ≡ true }
{}
