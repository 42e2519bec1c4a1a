// The top call.
ghost use Rattle.std.specs.Prelude.{◌≡◌, ◌≢◌, ◌≤◌, ◌+◌, ◌⊎◌, [], IfSome, Some, true};
ghost use Rattle.remap_io.specs.Causes.{Rose};
ghost use Rattle.remap_io.specs.Held.{Gains};
ghost use Rattle.command_line.specs.Words.{options_of, texts, HasLimits};
ghost use Rattle.tempest_top.specs.Scene.{scene};
ghost use Rattle.tempest_top.specs.Inputs.{inputs_of, reading_cost};
ghost use Rattle.tempest_top.specs.Outcome.{TheOutcome, is_usage};
ghost use Rattle.tempest_top.specs.Promises.{IsAnswer, FolderAfterRefusal, TextAfterRefusal, PutsLine, Keeps};

use crate::cover::check_coverage;
use crate::field::apply_offline_map;
use crate::generate::{generate_cs, generate_ico, generate_rll};
use crate::map::generate_map;
use crate::pairs::generate_overlap;
use crate::report::check_mesh;
use crate::self_run::self_run;
use command_line::{Chosen, OptFault, options};
use fault_lines::{Status, refuse_memory, refuse_usage};
use remap_io::{Files, Sink};
use std::alloc::Global;
use std::thread::Threads;

// Runs a command.
fn run_chosen<R: Threads, F: Files, O: Sink, E: Sink>(
    rt: &R,
    alloc: Global,
    chosen: Chosen,
    files: &mut F,
    out: &mut O,
    err: &mut E,
) -> Status
    requires { HasLimits chosen }
    ensures kept { Keeps (Some chosen)
        (scene (F.seen files.old) (O.seen out.old) (E.seen err.old))
        (scene (F.seen files.new) (O.seen out.new) (E.seen err.new)) result }
    ensures no_line { result ≡ Status.Done → err.new ≡ err.old }
{
    match chosen {
        Chosen::Cs { res, file } => generate_cs(alloc, res, &file, files, out, err),
        Chosen::Rll { lon, lat, file } => generate_rll(alloc, lon, lat, &file, files, out, err),
        Chosen::Ico { res, dual, file } => {
            generate_ico(alloc, res, dual, &file, files, out, err)
        }
        Chosen::Overlap {
            a,
            b,
            out: file,
            workers,
        } => { generate_overlap(rt, alloc, &a, &b, &file, workers, files, out, err) }
        Chosen::OfflineMap {
            in_mesh,
            out_mesh,
            ov_mesh,
            out_map,
        } => {
            generate_map(
                alloc, &in_mesh, &out_mesh, &ov_mesh, &out_map, files, out, err,
            )
        }
        Chosen::Apply {
            map,
            var,
            in_data,
            out_data,
            masked,
        } => {
            apply_offline_map(
                alloc, &map, &var, &in_data, &out_data, masked, files, out, err,
            )
        }
        Chosen::SelfRun { n, workers } => self_run(rt, alloc, n, workers, out, err),
        Chosen::Coverage { a, b } => check_coverage(alloc, &a, &b, files, out, err),
        Chosen::Check { file, workers } => {
            check_mesh(rt, alloc, &file, workers, files, out, err)
        }
    }
}

// Reads the words, and runs the command that they ask for.
fn run_words<R: Threads, F: Files, O: Sink, E: Sink>(
    rt: &R,
    alloc: Global,
    words: &[String],
    files: &mut F,
    out: &mut O,
    err: &mut E,
) -> Status
    ensures kept { Keeps (options_of (texts words.now))
        (scene (F.seen files.old) (O.seen out.old) (E.seen err.old))
        (scene (F.seen files.new) (O.seen out.new) (E.seen err.new)) result }
    ensures no_line { result ≡ Status.Done → err.new ≡ err.old }
{
    match options(alloc, words) {
        Ok(chosen) => run_chosen(rt, alloc, chosen, files, out, err),
        Err(OptFault::Usage) => refuse_usage(err),
        Err(OptFault::NoMemory) => refuse_memory(err),
    }
}

/// Does all that the program does: reads the words, which are those behind the program's own name,
/// reads its input files, replaces its output file, puts its text to `out` or the line of a refusal
/// to `err`, and answers the status.
///
/// The promises are said against the outcome of the words over the folder at the entry, of which
/// there is at most one. A clause that names a part of it says that there is an outcome with this
/// part; of a command with input files it says so where the folder is told. A count rose where it is
/// greater at the exit than at the entry, or stands at its last value, 2^64 - 1.
pub fn run<F: Files, O: Sink, E: Sink>(
    rt: &impl Threads,
    alloc: Global,
    words: &[String],
    files: &mut F,
    out: &mut O,
    err: &mut E,
) -> Status
    // The status promise: the status is that of the outcome, or a counted fault, or want of memory.
    ensures status { IsAnswer (options_of (texts words.now))
        (scene (F.seen files.old) (O.seen out.old) (E.seen err.old))
        (scene (F.seen files.new) (O.seen out.new) (E.seen err.new)) result }

    // The success promise: at Done the folder and the text are those of the outcome, and `err` is as
    // it was.
    ensures done_folder { result ≡ Status.Done → TheOutcome (options_of (texts words.now))
        (F.seen files.old).folder (λ o. (F.seen files.new).folder ≡ o.folder) }
    ensures done_text { result ≡ Status.Done → TheOutcome (options_of (texts words.now))
        (F.seen files.old).folder
        (λ o. Gains (O.seen out.old).contents (O.seen out.new).contents o.text) }
    ensures done_line { result ≡ Status.Done → err.new ≡ err.old }

    // The refusal promise: what a refusal leaves in the folder and in `out`.
    ensures refused_folder { result ≢ Status.Done → FolderAfterRefusal
        (options_of (texts words.now))
        (F.seen files.old).folder (F.seen files.new).folder result }
    ensures refused_text { result ≢ Status.Done → TextAfterRefusal (options_of (texts words.now))
        (F.seen files.old).folder (O.seen out.old).contents (O.seen out.new).contents result }
    ensures text_after_file { ((O.seen out.new).contents ≡ (O.seen out.old).contents)
        ⊎ TheOutcome (options_of (texts words.now)) (F.seen files.old).folder
        (λ o. (F.seen files.new).folder ≡ o.folder) }
    ensures fault_after_file { result ≡ Status.WriteFault
        → Rose (F.seen files.old).write_faults (F.seen files.new).write_faults
        ⊎ TheOutcome (options_of (texts words.now)) (F.seen files.old).folder
        (λ o. (F.seen files.new).folder ≡ o.folder) }

    // The message promise: a refusal puts its line, or a prefix of it where `err` counts a refused
    // put.
    ensures refused_line { result ≢ Status.Done → PutsLine (options_of (texts words.now))
        (scene (F.seen files.old) (O.seen out.old) (E.seen err.old))
        (scene (F.seen files.new) (O.seen out.new) (E.seen err.new)) result }

    // The cause promise: Usage is answered exactly for words that ask for nothing that the program
    // has; NoFile only where the count of misses rose. A command without an input file answers
    // neither NoFile nor ReadFault. What stands in the line of a ReadFault and of a WriteFault is
    // said in the message promise.
    ensures usage { result ≡ Status.Usage → is_usage (options_of (texts words.now)) ≡ true }
    ensures usage_only { is_usage (options_of (texts words.now)) ≡ true
        → (result ≡ Status.Usage) ⊎ (result ≡ Status.NoMemory) }
    ensures no_file { result ≡ Status.NoFile
        → Rose (F.seen files.old).misses (F.seen files.new).misses }
    ensures no_reads { inputs_of (options_of (texts words.now)) ≡ []
        → (result ≢ Status.NoFile) × (result ≢ Status.ReadFault) }

    // The bytes-read promise: at Done no more bytes were asked for than `reading_cost` of the input
    // files, which is 65,536 or twice the header for each, and its needed variables; and none
    // without an input file.
    ensures bytes_read { result ≡ Status.Done → IfSome (F.seen files.old).folder (λ m.
        (F.seen files.new).taken
        ≤ (F.seen files.old).taken + reading_cost m (inputs_of (options_of (texts words.now)))) }
    ensures no_bytes { inputs_of (options_of (texts words.now)) ≡ []
        → (F.seen files.new).taken ≡ (F.seen files.old).taken }
{
    run_words(rt, alloc, words, files, out, err)
}
