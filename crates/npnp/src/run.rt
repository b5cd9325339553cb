//! One run of the program: words in, files read, one report out.

ghost use Rattle.std.specs.Prelude.{◌≡◌, ◌≢◌, ℕ, ◌++◌, ◌↔◌, ◌⊎◌, List, IsTrue, Option, Some, Err};
ghost use Rattle.net_core.specs.declared.matching.Matching.{Matching};
ghost use Rattle.net_file.specs.declared.fault.NetKind.{NetKind};
ghost use Rattle.hier_blif.specs.declared.fault.HierFault.{HierFault};
ghost use Rattle.shelf_core.specs.Fault.{NoCallFollows, NoPutFollows, Rose};
ghost use Rattle.shelf_core.specs.State.{Closed};
ghost use Rattle.account_check.specs.declared.verdict.Why.{Why as Reason};
ghost use Rattle.check_steps.specs.declared.outcome.Outcome.{Outcome as AnyOutcome};
ghost use Rattle.check_steps.specs.declared.outcome.Which.{Which as AnyFile};
ghost use Rattle.check_steps.specs.Words.{AskForPair, AskNothing, AsksTrial, ReadFiles};
ghost use Rattle.query_core.specs.Ledgers.{Ledgered};
ghost use Rattle.check_steps.specs.Check.{IsAccepted, IsRejected, IsMatchOfFiles, LacksMatch};
ghost use Rattle.run_steps.specs.Make.{HasMadePair, NamesPair, WriteFiles};
ghost use Rattle.run_steps.specs.Match.{HasNoMatch, IsAskedToMatch, IsMatchFound, IsProved, IsSpentOnTwo, NamesAccount};
ghost use Rattle.check_steps.specs.Ends.{EndsEarly, IsAbsent};
ghost use Rattle.run_steps.specs.Outcomes.{FollowsWords, IsAskedOf, IsDecided, IsOfMatch, IsOfTrial, IsRight};
ghost use Rattle.run_steps.specs.Outcomes.{IsSettled};
ghost use Rattle.run_steps.specs.Outcomes.{IsSoundAnswer, IsSpentOn, IsReported, Leaves, LeavesFiles, MayBeCut};
ghost use Rattle.run_steps.specs.Restore.{AsChecked, HasRestored, IsRestorable, NamesRestored};
ghost use Rattle.run_steps.specs.Trim.{AsRead, HasTrimmed, IsAskedToTrim, IsOfTrim, IsTrimmedTo, NamesTrimmed};
ghost use Rattle.run_steps.specs.Convert.{HasConverted, IsAskedToConvert, IsConvertedTo, IsIllFormed, IsOfConvert};
ghost use Rattle.run_steps.specs.Convert.{LacksOld, NamesConverted};
ghost use Rattle.run_steps.specs.Flatten.{HasFlattened, IsAskedToFlatten, IsBadHierarchy, IsFlattenedTo, IsOfFlatten};
ghost use Rattle.run_steps.specs.Flatten.{LacksModels, NamesFlattened};
ghost use Rattle.run_steps.specs.Sweep.{HasSwept, IsAskedToSweep, IsOfSweep, IsSweptTo, NamesSwept};
ghost use Rattle.run_steps.specs.Report.{IsReport};
ghost use Rattle.check_steps.specs.Lines.{line_of};
ghost use Rattle.run_steps.specs.Steps.{Decides, SaysLine, PutsText, WritesPart};
ghost use Rattle.npnp.specs.CommandLine.{bytes_of};
ghost use Rattle.run_steps.specs.Commands.{IsTrialCommand};
ghost use Rattle.run_steps.specs.Trial.{IsSpentOnPair, IsTried};

use crate::info::inform;
use crate::matching::match_files;
use crate::trying::try_pair;
use account_check::Verdict;
pub use check_steps::Ending;
use check_steps::{Command, Outcome, Which, check_files, command_asked, report_line};
use restore_steps::restore_files;
use rewrite_steps::{convert_files, flatten_files, sweep_files, trim_files};
use run_steps::make_files;
use shelf_core::{Shelf, ShelfStop, Sink};
use std::alloc::Global;
use watch_core::Watch;

/// What is printed where there is no memory.
const OUT_OF_MEMORY: &[u8] = b"out of memory\n";

/// Runs the program on the words of its command line: reads the files that they name, decides, and puts one
/// report. It knows these words, where each netlist is in BLIF or in the AIGER format:
///
/// - `match FIRST SECOND ACCOUNT [BUDGET [SEED]]`: FIRST and SECOND are netlists, of which a match is sought: a
///   matching, each port with its partner, under which all outputs agree on every vector. It is printed as a port
///   table, a line for each port. ACCOUNT is written, the proof of the match or that there is none; its name is neither
///   of the others. At most BUDGET clauses are learned, by default 1,000,000,000; SEED, by default 1, chooses the
///   vectors that are simulated.
/// - `check FIRST SECOND ACCOUNT`: FIRST and SECOND are netlists, and ACCOUNT, in the text or in the binary
///   form, claims a matching and proves, by refutations, that it is a match of the two, or proves by bans that no
///   matching is one. A match that it proves is printed as a port table.
/// - `restore FIRST SECOND ACCOUNT NEW`: where ACCOUNT proves a match of the netlists FIRST and SECOND, as a check by
///   these names would say, NEW is written, in the binary form of AIGER: SECOND's gates with FIRST's ports, with
///   their names and in their order. The name NEW is none of the others.
/// - `trim FIRST SECOND OLD NEW`: where OLD is an account of the netlists FIRST and SECOND that is accepted, as a check
///   by these names would say, NEW is written: OLD as text, without the records that its conclusion doesn't rest on.
///   The name NEW is none of the others.
/// - `convert OLD NEW`: where OLD is an account, in the text or in the binary form, without a fault of form, NEW is
///   written: the same records in the other form, the binary one with drops of facts and bans that no later record
///   names. The two names differ.
/// - `flatten FILE NEW`: FILE is in BLIF, and may have several models with instances of one another (`.subckt`). NEW is
///   written, in the ASCII form of AIGER: the first model as one flat netlist, with its ports and their names. The two
///   names differ.
/// - `sweep FILE NEW [ALLOWANCE]`: FILE is a netlist. NEW is written, in the ASCII form of AIGER: the netlist with one
///   signal in place of all that compute the same, or the complement, and without the gates that no output reaches. At
///   most ALLOWANCE clauses are learned to compare signals, by default 1,000,000; where they are spent, the signals
///   that weren't compared stay as they are. The two names differ.
/// - `info FILE [BUDGET]`: FILE is a netlist. Its supports, unateness and symmetries are decided; at most BUDGET
///   clauses are learned for that, by default 1,000,000,000.
/// - `make NUMBER FIRST SECOND`: the pair of netlists that NUMBER gives is made, and written to the files FIRST, in the
///   binary form of AIGER, and SECOND, as BLIF; the two names differ.
/// - `trial NUMBER`: the pair of netlists that NUMBER gives is made in memory, a match of it is sought with the default
///   budget and seed, and the account of the match is checked. No file is read or written.
///
/// The files are opened in this order, each read and closed before the next. A netlist of more than 67,108,864
/// bytes is closed unread. An account is written once it is known: its records in pieces of 65,536 bytes, and its
/// last one by itself. The files of a pair, and a netlist that is restored, flattened or swept, are written one after the
/// other in such pieces. After a failure no further call of the shelf is made.
///
/// The sink gets what the run is at, and gets the report at the end.
///
/// What is promised of files is promised on a shelf that tells its files (`S.tells`), as one in memory, and what is
/// promised of the report's bytes on a sink that tells them (`K.tells`). A disk and standard output tell nothing.
pub fn run<S: Shelf, K: Sink>(
    alloc: Global,
    words: &[String],
    shelf: &mut S,
    out: &mut K,
) -> Outcome
    requires { (S.state shelf.old).mode ≡ Closed }

    // A matching is found only where it is a match of the two files' netlists, and the account as it is afterwards
    // proves it: a check by the same names accepts it.
    ensures matched { IsTrue S.tells → (matching : Matching) → result ≡ Outcome.Matched matching
        → IsMatchFound (S.state shelf.old).held (bytes_of words.now) matching }
    ensures matched_account { IsTrue S.tells → (matching : Matching) → result ≡ Outcome.Matched matching
        → IsProved (S.state shelf.new).held (bytes_of words.now) (Verdict.Match matching) }

    // There is said to be no match exactly where no signed bijections make the two netlists equal, unless the budget
    // was spent, a call failed or memory ran out; and the account as it is afterwards proves it.
    ensures no_matching { IsTrue S.tells → IsSettled result
        → ((result ≡ Outcome.NoMatching) ↔ HasNoMatch (S.state shelf.old).held (bytes_of words.now)) }
    ensures no_matching_account { IsTrue S.tells → result ≡ Outcome.NoMatching
        → IsProved (S.state shelf.new).held (bytes_of words.now) Verdict.None }

    // Where a match of two netlists is sought, no call failed and memory did not run out, a match or that there is none
    // is answered, or that the budget was spent.
    ensures answered { IsTrue S.tells → IsDecided result
        → IsAskedToMatch (S.state shelf.old).held (bytes_of words.now) → IsOfMatch result }

    // Where no call failed and memory did not run out, the words and the files decide the outcome: an account that is
    // accepted, or its first bad record; a netlist that isn't there, is too large, or is malformed, and where. For
    // `restore` and `trim` the first three files decide as for a check of them, but for an account that is accepted: of
    // a match, or any. For `convert` a bad record is one that has a fault of form. For `flatten` a file of models has its
    // own first fault.
    ensures accepted { IsTrue S.tells → IsDecided result → (matching : Matching)
        → ((result ≡ Outcome.AcceptedMatch matching)
        ↔ IsAccepted (S.state shelf.old).held (bytes_of words.now) (Verdict.Match matching)) }
    ensures accepted_refusal { IsTrue S.tells → IsDecided result
        → ((result ≡ Outcome.AcceptedRefusal)
        ↔ AsChecked (λ checked. IsAccepted (S.state shelf.old).held checked Verdict.None)
        (bytes_of words.now)) }
    ensures rejected { IsTrue S.tells → IsDecided result → (line : ℕ) (why : Reason)
        → ((result ≡ Outcome.Rejected line why)
        ↔ (AsRead (λ checked. IsRejected (S.state shelf.old).held checked line why) (bytes_of words.now)
        ⊎ IsIllFormed (S.state shelf.old).held (bytes_of words.now) line why)) }
    ensures absent { IsTrue S.tells → IsDecided result → (which : AnyFile)
        → ((result ≡ Outcome.Absent which)
        ↔ (AsRead (λ checked. IsAbsent (S.state shelf.old).held checked which) (bytes_of words.now)
        ⊎ ((which ≡ Which.Account) × LacksOld (S.state shelf.old).held (bytes_of words.now))
        ⊎ LacksModels (S.state shelf.old).held (bytes_of words.now) (Outcome.Absent which))) }
    ensures too_large { IsTrue S.tells → IsDecided result → (which : AnyFile)
        → ((result ≡ Outcome.TooLarge which)
        ↔ (AsRead (λ checked. EndsEarly (S.state shelf.old).held checked (Outcome.TooLarge which))
        (bytes_of words.now)
        ⊎ LacksModels (S.state shelf.old).held (bytes_of words.now) (Outcome.TooLarge which))) }
    ensures malformed { IsTrue S.tells → IsDecided result
        → (which : AnyFile) (kind : NetKind) (at : ℕ)
        → ((result ≡ Outcome.Malformed which kind at)
        ↔ AsRead
        (λ checked. EndsEarly (S.state shelf.old).held checked (Outcome.Malformed which kind at))
        (bytes_of words.now)) }
    ensures bad_hierarchy { IsTrue S.tells → IsDecided result → (fault : HierFault)
        → ((result ≡ Outcome.BadHierarchy fault)
        ↔ IsBadHierarchy (S.state shelf.old).held (bytes_of words.now) fault) }

    // A matching is accepted only where it is a match of the two files' netlists, whoever wrote the account.
    ensures sound { IsTrue S.tells → (matching : Matching) → result ≡ Outcome.AcceptedMatch matching
        → IsMatchOfFiles (S.state shelf.old).held (bytes_of words.now) matching }

    // A refusal is accepted only where no signed bijections make the two files' netlists equal, whoever wrote it.
    ensures sound_refusal { IsTrue S.tells → result ≡ Outcome.AcceptedRefusal
        → AsChecked (LacksMatch (S.state shelf.old).held) (bytes_of words.now) }

    // What is known of a netlist is reported where no budget was spent, and by rows that are right for its circuit. A
    // budget is spent by work on the netlists that the words name.
    ensures informed { IsTrue S.tells → IsSettled result
        → ((result ≡ Outcome.Informed) ↔ IsAskedOf (S.state shelf.old).held (bytes_of words.now)) }
    ensures spent { IsTrue S.tells → (ledger : Ledgered) → result ≡ Outcome.Spent ledger
        → IsSpentOn (S.state shelf.old).held (bytes_of words.now) ledger
        ⊎ IsSpentOnTwo (S.state shelf.old).held (bytes_of words.now) ledger
        ⊎ IsSpentOnPair (bytes_of words.now) ledger }

    // A pair is made exactly where the words ask for one, unless a write failed or memory ran out. The two files are
    // then the pair as it is printed, which is read as circuits of the pair's functions, and these have a match.
    ensures made { IsReported result → ((result ≡ Outcome.Made) ↔ AskForPair (bytes_of words.now)) }
    ensures pair { IsTrue S.tells → result ≡ Outcome.Made → HasMadePair (S.state shelf.new).held (bytes_of words.now) }

    // A netlist is restored exactly where the words ask for it and a check by the first three names accepts the
    // account, which proves a match, unless a fault came or memory ran out. The new file has it then: it has the first
    // netlist's ports, in their order and by their names, and computes what that does, with no more gates than the
    // second's graph.
    ensures restored { IsTrue S.tells → IsDecided result → (gates : ℕ)
        → ((result ≡ Outcome.Restored gates)
        ↔ IsRestorable (S.state shelf.old).held (bytes_of words.now) gates) }
    ensures restored_file { IsTrue S.tells → (gates : ℕ) → result ≡ Outcome.Restored gates
        → HasRestored (S.state shelf.old).held (S.state shelf.new).held (bytes_of words.now) gates }

    // An account is trimmed exactly where the words ask for it and a check by the first three names accepts it, unless
    // a fault came or memory ran out. The new file has what is left of it then: each record is one on which the
    // conclusion rests, and a check accepts it with the same answer.
    ensures trimmed { IsTrue S.tells → IsDecided result → (before after : ℕ)
        → ((result ≡ Outcome.Trimmed before after)
        ↔ IsTrimmedTo (S.state shelf.old).held (bytes_of words.now) before after) }
    ensures trims { IsTrue S.tells → IsDecided result
        → IsAskedToTrim (S.state shelf.old).held (bytes_of words.now) → IsOfTrim result }
    ensures trimmed_file { IsTrue S.tells → (before after : ℕ) → result ≡ Outcome.Trimmed before after
        → HasTrimmed (S.state shelf.old).held (S.state shelf.new).held (bytes_of words.now) before after }

    // An account is converted exactly where the words ask for it and it has no fault of form, unless a fault came or
    // memory ran out. The new file has it in the other version then: the same records, drops aside, which prove what
    // they did.
    ensures converted { IsTrue S.tells → IsDecided result → (from to records : ℕ)
        → ((result ≡ Outcome.Converted from to records)
        ↔ IsConvertedTo (S.state shelf.old).held (bytes_of words.now) from to records) }
    ensures converts { IsTrue S.tells → IsDecided result
        → IsAskedToConvert (S.state shelf.old).held (bytes_of words.now) → IsOfConvert result }
    ensures converted_file { IsTrue S.tells → (from to records : ℕ) → result ≡ Outcome.Converted from to records
        → HasConverted (S.state shelf.old).held (S.state shelf.new).held (bytes_of words.now) from to records }

    // A file of models is flattened exactly where the words ask for it and it has no fault, unless a fault of the
    // outside came or memory ran out. The new file has the netlist then: read as a circuit it has the names of the first
    // model's ports, and computes the function of the models, for exactly one nested valuation fits each vector.
    ensures flattened { IsTrue S.tells → IsDecided result → (models instances gates : ℕ)
        → ((result ≡ Outcome.Flattened models instances gates)
        ↔ IsFlattenedTo (S.state shelf.old).held (bytes_of words.now) models instances gates) }
    ensures flattens { IsTrue S.tells → IsDecided result
        → IsAskedToFlatten (S.state shelf.old).held (bytes_of words.now) → IsOfFlatten result }
    ensures flattened_file { IsTrue S.tells → (models instances gates : ℕ)
        → result ≡ Outcome.Flattened models instances gates
        → HasFlattened (S.state shelf.old).held (S.state shelf.new).held (bytes_of words.now) models instances gates }

    // A netlist is swept where the words ask for it and the file is a netlist, unless a fault came or memory ran out.
    // The new file has it then, with the same ports and no more gates: it computes what the netlist does. Where nothing
    // is left over, one signal stands for all that compute the same, or the complement; else the allowance was spent by
    // comparing signals, and wasn't enough.
    ensures swept { IsTrue S.tells → (before after : ℕ) (left : Option Ledgered)
        → result ≡ Outcome.Swept before after left
        → IsSweptTo (S.state shelf.old).held (bytes_of words.now) before after left }
    ensures sweeps { IsTrue S.tells → IsDecided result
        → IsAskedToSweep (S.state shelf.old).held (bytes_of words.now) → IsOfSweep result }
    ensures swept_file { IsTrue S.tells → (before after : ℕ) (left : Option Ledgered)
        → result ≡ Outcome.Swept before after left
        → HasSwept (S.state shelf.old).held (S.state shelf.new).held (bytes_of words.now) before after left }

    // A pair was tried only where its number is that of the words and the account, which the outcome has, is accepted
    // for it: it proves a matching that is a match. Nothing else comes of a trial, but that the budget is spent on the
    // pair.
    ensures tried { (number : ℕ) (account : List ℕ) → result ≡ Outcome.Tried number account
        → IsTried (bytes_of words.now) number account }
    ensures trial { IsReported result → (number : ℕ) → AsksTrial (bytes_of words.now) number → IsOfTrial number result }

    // The words have no known form exactly where that is answered, unless the report can't be put. Such words, and
    // those of a trial, lead to no call of the shelf.
    ensures usage { IsReported result → ((result ≡ Outcome.Usage) ↔ AskNothing (bytes_of words.now)) }
    ensures no_call { AskNothing (bytes_of words.now) → shelf.new ≡ shelf.old }
    ensures trial_no_call { (number : ℕ) → AsksTrial (bytes_of words.now) number → shelf.new ≡ shelf.old }

    // A fault that is answered is that of a call which failed in this run. A read fault: of the shelf, where the words
    // name files that are read. A write fault: of the output; or of the shelf, where they name files that are written,
    // and then nothing is put.
    ensures read_fault { result ≡ Outcome.ReadFault
        → ReadFiles (bytes_of words.now) × Rose (S.state shelf.old).faults (S.state shelf.new).faults }
    ensures write_fault { result ≡ Outcome.WriteFault
        → Rose (K.state out.old).faults (K.state out.new).faults
        ⊎ (WriteFiles (bytes_of words.now)
        × Rose (S.state shelf.old).faults (S.state shelf.new).faults
        × (out.new ≡ out.old)) }

    // After a call of the shelf that failed no further one is made, and after a put that failed nothing is put.
    ensures no_call_follows { NoCallFollows (S.state shelf.old) (S.state shelf.new) }
    ensures no_put_follows { NoPutFollows (K.state out.old) (K.state out.new) }

    // No file changes but the account of a match, and that one only where there is an answer, the two files of a pair,
    // that of a netlist which is restored, flattened or swept, and that of an account which is trimmed or converted. A
    // failed write or running out of memory may leave a first part of an account that is accepted, of a netlist that is
    // restored, flattened or swept, of an account that is trimmed or converted, or of the pair's first netlist, and only
    // where that is whole a part of the second.
    ensures files { IsTrue S.tells → (name : List ℕ)
        → (NamesAccount (bytes_of words.now) name → ⊥)
        → (NamesPair (bytes_of words.now) name → ⊥)
        → (NamesRestored (bytes_of words.now) name → ⊥)
        → (NamesTrimmed (bytes_of words.now) name → ⊥)
        → (NamesConverted (bytes_of words.now) name → ⊥)
        → (NamesFlattened (bytes_of words.now) name → ⊥)
        → (NamesSwept (bytes_of words.now) name → ⊥)
        → (S.state shelf.new).held name ≡ (S.state shelf.old).held name }
    ensures kept { IsTrue S.tells → LeavesFiles result → (name : List ℕ)
        → (S.state shelf.new).held name ≡ (S.state shelf.old).held name }
    ensures cut { IsTrue S.tells → (result ≡ Outcome.WriteFault) ⊎ (result ≡ Outcome.Memory)
        → MayBeCut (S.state shelf.old).held (S.state shelf.new).held (bytes_of words.now) }

    // The report is put whole, or after a failed write or running out of memory a first part of a right one.
    ensures report { IsTrue K.tells → IsReported result
        → (text : List ℕ)
        × IsReport S.tells (S.state shelf.old).held (bytes_of words.now) result text
        × ((K.state out.new).written ≡ (K.state out.old).written ++ text) }
    ensures part { IsTrue S.tells → IsTrue K.tells
        → (asked : AnyOutcome) × (text : List ℕ)
        × IsRight (S.state shelf.old).held (bytes_of words.now) asked
        × IsSoundAnswer (S.state shelf.old).held (bytes_of words.now) asked
        × IsReport S.tells (S.state shelf.old).held (bytes_of words.now) asked text
        × WritesPart (K.state out.old) (K.state out.new) text }
{
    let ending = answer(alloc, words, shelf, &*out);
    put_report(ending, out)
}

/// How the words and the files, or a fault that came between, end the run.
fn answer<S: Shelf, W: Watch>(alloc: Global, words: &[String], shelf: &mut S, watch: &W) -> Ending
    requires { (S.state shelf.old).mode ≡ Closed }
    ensures right { IsTrue S.tells
        → IsRight (S.state shelf.old).held (bytes_of words.now) result.outcome }
    ensures sound { IsTrue S.tells
        → IsSoundAnswer (S.state shelf.old).held (bytes_of words.now) result.outcome }
    ensures report { (result.outcome ≡ Outcome.Memory)
        ⊎ IsReport S.tells (S.state shelf.old).held (bytes_of words.now) result.outcome result.report.items }
    ensures files { IsTrue S.tells → (name : List ℕ)
        → (NamesAccount (bytes_of words.now) name → ⊥)
        → (NamesPair (bytes_of words.now) name → ⊥)
        → (NamesRestored (bytes_of words.now) name → ⊥)
        → (NamesTrimmed (bytes_of words.now) name → ⊥)
        → (NamesConverted (bytes_of words.now) name → ⊥)
        → (NamesFlattened (bytes_of words.now) name → ⊥)
        → (NamesSwept (bytes_of words.now) name → ⊥)
        → (S.state shelf.new).held name ≡ (S.state shelf.old).held name }
    ensures left { IsTrue S.tells
        → Leaves (S.state shelf.old).held (S.state shelf.new).held (bytes_of words.now) result.outcome }
    ensures read_fault { result.outcome ≡ Outcome.ReadFault
        → Rose (S.state shelf.old).faults (S.state shelf.new).faults }
    ensures write_fault { result.outcome ≡ Outcome.WriteFault
        → WriteFiles (bytes_of words.now)
        × Rose (S.state shelf.old).faults (S.state shelf.new).faults }
    ensures no_call_follows { NoCallFollows (S.state shelf.old) (S.state shelf.new) }
    ensures by_words { FollowsWords (bytes_of words.now) result.outcome }
    ensures usage { result.outcome ≡ Outcome.Usage → AskNothing (bytes_of words.now) }
    ensures trial_no_call { (number : ℕ) → AsksTrial (bytes_of words.now) number → shelf.new ≡ shelf.old }
    ensures no_form { AskNothing (bytes_of words.now)
        → (shelf.new ≡ shelf.old) × ((result.outcome ≡ Outcome.Usage) ⊎ (result.outcome ≡ Outcome.Memory)) }
{
    let Some(command) = command_asked(words) else {
        return end_by_line(alloc, Outcome::Usage);
    };
    match follow(alloc, &command, shelf, watch) {
        Ok(ending) => ending,
        Err(outcome) => end_by_line(alloc, outcome),
    }
}

/// How the files that a command names end the run. The error is an outcome whose report is one line.
fn follow<S: Shelf, W: Watch>(
    alloc: Global,
    command: &Command<'_>,
    shelf: &mut S,
    watch: &W,
) -> Result<Ending, Outcome>
    requires { (S.state shelf.old).mode ≡ Closed }
    ensures decides { Decides S.tells command.now (S.state shelf.old) (S.state shelf.new) result }
    ensures no_call { IsTrialCommand command.now → shelf.new ≡ shelf.old }
{
    match command {
        Command::Check(check) => check_files(alloc, check, shelf, watch),
        Command::Restore(asked) => restore_files(alloc, asked, shelf, watch),
        Command::Trim(asked) => trim_files(alloc, asked, shelf, watch),
        Command::Convert(asked) => convert_files(alloc, asked, shelf),
        Command::Flatten(asked) => flatten_files(alloc, asked, shelf),
        Command::Sweep(asked) => sweep_files(alloc, asked, shelf, watch),
        Command::Match(asked) => match_files(alloc, asked, shelf, watch),
        Command::Info(info) => inform(alloc, info, shelf, watch),
        Command::Make(asked) => make_files(alloc, asked, shelf),
        Command::Trial(trial) => try_pair(alloc, trial, watch),
    }
}

/// The end of a run with an outcome whose report is one line.
fn end_by_line(alloc: Global, outcome: Outcome) -> Ending
    ensures { SaysLine outcome result }
{
    match report_line(alloc, &outcome) {
        Ok(report) => Ending { outcome, report },
        Err(_) => Ending {
            outcome: Outcome::Memory,
            report: Vec::new(alloc),
        },
    }
}

/// Puts the report of an ending, and answers how the run ends with that. After a failed write of a file nothing is put.
fn put_report<K: Sink>(ending: Ending, out: &mut K) -> Outcome
    ensures report { IsTrue K.tells → IsReported result
        → (K.state out.new).written ≡ (K.state out.old).written ++ ending.report.items }
    ensures part { IsTrue K.tells
        → ((ending.outcome ≢ Outcome.Memory)
        × WritesPart (K.state out.old) (K.state out.new) ending.report.items)
        ⊎ WritesPart (K.state out.old) (K.state out.new) (line_of Outcome.Memory) }
    ensures same { IsReported result → result ≡ ending.outcome }
    ensures write_fault { result ≡ Outcome.WriteFault
        → ((ending.outcome ≡ Outcome.WriteFault) × (out.new ≡ out.old))
        ⊎ Rose (K.state out.old).faults (K.state out.new).faults }
    ensures no_put_follows { NoPutFollows (K.state out.old) (K.state out.new) }
{
    let Ending { outcome, report } = ending;
    match outcome {
        Outcome::WriteFault => Outcome::WriteFault,
        Outcome::Memory => put(OUT_OF_MEMORY, Outcome::Memory, out),
        outcome => put(&report, outcome, out),
    }
}

/// Puts a text that is the report of an outcome.
fn put<K: Sink>(text: &[u8], outcome: Outcome, out: &mut K) -> Outcome
    requires { outcome ≢ Outcome.WriteFault }
    ensures { PutsText K.tells text.now outcome (K.state out.old) (K.state out.new) result }
{
    match out.put(text) {
        Ok(()) => outcome,
        Err(ShelfStop::Failed) => Outcome::WriteFault,
        Err(ShelfStop::Memory) => Outcome::Memory,
    }
}
