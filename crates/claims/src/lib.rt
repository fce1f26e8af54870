// The claims about the engine as a whole, each the contract of a function that does nothing: the check names them as proved.
#![tactic(auto)]

ghost use Rattle.std.specs.Prelude.{ℕ, ◌≤◌, ◌≡◌, true, List, length};
ghost use Rattle.message.specs.RoundTrip.{RoundTrip};
ghost use Rattle.engine.specs.Sizes.{outbox_size};
ghost use Rattle.engine.specs.Held.{Held};
ghost use Rattle.engine.specs.Calls.{Call};
ghost use Rattle.engine.specs.Records.{records};
ghost use Rattle.engine.specs.Layout.{layout};
ghost use Rattle.engine.specs.Need.{record_count};
ghost use Rattle.engine.specs.Engine.{names_of, need_of};
ghost use Rattle.engine.specs.Arrays.{Engine, held};
ghost use Rattle.claims.specs.Claim.{Log, Claim};
ghost use Rattle.claims.specs.EveryList.{Word, Lent, Logged};
ghost use Rattle.claims.specs.Window.{EachInTime};
ghost use Rattle.engine.specs.StarCases.{all_hold, star_cases};
ghost use Rattle.engine.specs.declared.answer.Answer.{Answer};
ghost use Rattle.engine.proofs.Contracts.{News, Gives};
ghost use Rattle.engine.proofs.Functions.{functions};
ghost use Rattle.host.proofs.Exports.{exports};

// Demand 3: it holds of every list of public calls, whatever their arguments, whose answers are what the functions' contracts give.
// The claim itself is stated in specs/Claim.antt.
pub fn demand_three()
    ensures { (seed time : ℕ) (calls : List Call) (answers : List Answer) (last : Engine) (log : Log (News functions) (Gives functions) seed time calls answers last) → Claim log }
{}

// And it is about every list: each list of calls, whose numbers are in the range of their types, has a log, whatever outboxes are lent to them.
pub fn each_has_a_log()
    ensures { (seed time : ℕ) → Word seed → (lent : List (Call × List ℕ)) → Lent lent → Logged (News functions) (Gives functions) seed time lent }
{}

// Demand 3 of what a customer links: the same of every list of the exported calls (host/src/exported.rt), whose answers are what the exports' own contracts give.
pub fn demand_three_exported()
    ensures { (seed time : ℕ) (calls : List Call) (answers : List Answer) (last : Engine) (log : Log (News exports) (Gives exports) seed time calls answers last) → Claim log }
{}

// And each list of exported calls has a log.
pub fn each_exported_has_a_log()
    ensures { (seed time : ℕ) → Word seed → (lent : List (Call × List ℕ)) → Lent lent → Logged (News exports) (Gives exports) seed time lent }
{}

// Document 01's ★ cases, one table, with the delays of document 02's change 2.
pub fn star_cases()
    ensures { all_hold star_cases ≡ true }
{}

// The round trip: what each of the four `build_*` writes, of any good texts, `parse` reads back to its kind and its fields (message/specs/RoundTrip.antt).
pub fn round_trip()
    ensures { RoundTrip }
{}

// Document 02, change 1: the formula counts the records that a call sends, whatever is held, and the room that refusal 2 asks for is their bytes; no call on any
// content of the arrays asks for more than 62,880 of them (document 01, 'Outbox').
pub fn records_counted()
    ensures { ((h : Held) (c : Call) → (record_count h.context (names_of h.advertisements) c ≡ length (records h.context h.advertisements c)) × (need_of h c ≡ length (layout (records h.context h.advertisements c)))) × ((e : Engine) (c : Call) → need_of (held e) c ≤ outbox_size) }
{}

// Document 02, change 2: after an accepted search, whatever the arrays held, each reply that it opened is due inside the searcher's window (specs/Window.antt), of the functions and of the exports.
pub fn due_inside_the_window()
    ensures { EachInTime (Gives functions) × EachInTime (Gives exports) }
{}
