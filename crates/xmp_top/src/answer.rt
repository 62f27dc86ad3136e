// Prepares what is due.
ghost use Rattle.std.specs.Prelude.{◌≡◌, ◌≤◌, List, ℕ, Option, map, string_bytes, option_map, IfOk, IsTrue, length, MatchOption};
ghost use Rattle.xmp_parts.specs.Narrow.{is_count};
ghost use Rattle.xmp_prog.specs.declared.parts.ProgParts.{ProgParts};
ghost use Rattle.xmp_meaning.specs.Programs.{serial};
ghost use Rattle.xmp_first.specs.Accepts.{Accepts};
ghost use Rattle.xmp_base.specs.Limits.{source_limit};
ghost use Rattle.xmp_top.specs.Settings.{settings_of};
ghost use Rattle.xmp_top.specs.Forms.{form_of};
ghost use Rattle.xmp_top.specs.Answer.{AnswersCheck, AnswersForm, AnswersInput, AnswersRead, AnswersRun, AnswersSerial, AnswersText, IsDue, IsNone, due_of, only_line, prints, run_on, says_refused, steps_in};

use crate::forms::{Command, CommandLine};
use crate::lines::{refused_line, trapped_line};
use crate::options::Options;
use crate::prepared::Prepared;
use crate::words::command_line;
use std::alloc::Global;
use std::mem::drop;
use xmp_base::{
    Bytes, DEFAULT_STEPS, Fault, FileError, Files, INPUT_LIMIT, NoMemory, Phase, Place, Refusal,
    SOURCE_LIMIT, Status,
};
use xmp_drive::{Accepted, compile};
use xmp_first::{read_first, run_first};
use xmp_meaning::Outcome;
use xmp_serial::serial;

// ---- the dues

// Nothing on `out`, and a line on `err`.
fn line_on_err(alloc: Global, text: &[u8], status: Status) -> Result<Prepared, NoMemory>
    ensures { IfOk result (λ due. record { out = due.out; err = due.err; status = due.status } ≡ only_line text.now status) }
{
    let mut err = Bytes::copy_of(alloc, text)?;
    err.push(b'\n')?;
    Ok(Prepared {
        out: Bytes::new(alloc),
        err,
        status,
    })
}

fn refused(alloc: Global, refusal: Refusal) -> Result<Prepared, NoMemory>
    ensures { IfOk result (λ due. record { out = due.out; err = due.err; status = due.status } ≡ says_refused refusal) }
{
    let err = refused_line(alloc, refusal)?;
    Ok(Prepared {
        out: Bytes::new(alloc),
        err,
        status: Status::Refused,
    })
}

fn printed(alloc: Global, out: Bytes) -> Prepared
    ensures { record { out = result.out; err = result.err; status = result.status } ≡ prints out }
{
    Prepared {
        out,
        err: Bytes::new(alloc),
        status: Status::Ended,
    }
}

// What a run came to.
fn come_to(alloc: Global, outcome: Outcome) -> Result<Prepared, NoMemory>
    ensures { IfOk result (λ due. record { out = due.out; err = due.err; status = due.status } ≡ due_of outcome) }
{
    match outcome {
        Outcome::Ended { out, arrays } => {
            drop(arrays);
            Ok(printed(alloc, out))
        }
        Outcome::Trapped { out, kind, at } => {
            let err = trapped_line(alloc, kind, at)?;
            Ok(Prepared {
                out,
                err,
                status: Status::Trapped,
            })
        }
        Outcome::OutOfSteps { out } => {
            let err = Bytes::copy_of(alloc, b"out of steps\n")?;
            Ok(Prepared {
                out,
                err,
                status: Status::OutOfSteps,
            })
        }
    }
}

// ---- run

// The output of the program that a text is, as its nodes found it, or none where the text is no program.
fn output_of(alloc: Global, text: &[u8]) -> Result<Option<Bytes>, NoMemory>
    ensures { IfOk result (λ found. MatchOption found (IsNone text.now) (λ out. Accepts text.now out)) }
{
    match read_first(alloc, text) {
        Ok(program) => {
            let world = run_first(alloc, &program)?;
            let out = Bytes::copy_of(alloc, world.out())?;
            Ok(Some(out))
        }
        Err(Fault::Refused(_)) => Ok(None),
        Err(Fault::NoMemory) => Err(NoMemory),
    }
}

fn answer_run(alloc: Global, text: &[u8]) -> Result<Prepared, NoMemory>
    ensures { IfOk result (λ due. AnswersRun text.now (record { out = due.out; err = due.err; status = due.status })) }
{
    match output_of(alloc, text)? {
        Some(out) => Ok(printed(alloc, out)),
        None => refused(
            alloc,
            Refusal {
                phase: Phase::Syntax,
                rule: 1,
                at: Place { line: 1, column: 1 },
            },
        ),
    }
}

// ---- check

// The number of nodes that is asked for.
fn nodes_of(options: &Options<'_>) -> Option<u32>
    requires { IsTrue (is_count options.now.nodes) }
    ensures { result ≡ options.now.nodes }
{
    match options.nodes {
        Some(n) => Some(n as u32),
        None => None,
    }
}

fn answer_check(alloc: Global, options: &Options<'_>, text: &[u8]) -> Result<Prepared, NoMemory>
    requires size { length text.now ≤ source_limit }
    requires count { IsTrue (is_count options.now.nodes) }
    ensures { IfOk result (λ due. AnswersCheck (settings_of options.now) text.now (record { out = due.out; err = due.err; status = due.status })) }
{
    match compile(alloc, text, nodes_of(options)) {
        Ok(program) => {
            drop(program);
            let out = Bytes::copy_of(alloc, b"accepted\n")?;
            Ok(printed(alloc, out))
        }
        Err(Fault::Refused(refusal)) => refused(alloc, refusal),
        Err(Fault::NoMemory) => Err(NoMemory),
    }
}

// ---- serial

fn steps_of(options: &Options<'_>) -> u64
    ensures { result ≡ steps_in options.now.steps }
{
    match options.steps {
        Some(steps) => steps,
        None => DEFAULT_STEPS,
    }
}

// A run of a program with its directives erased, on an input.
fn run_serial(
    alloc: Global,
    options: &Options<'_>,
    program: &Accepted,
    input: &[u8],
) -> Result<Prepared, NoMemory>
    ensures { IfOk result (λ due. record { out = due.out; err = due.err; status = due.status } ≡ run_on (settings_of options.now) program.now input.now) }
{
    let outcome = serial(alloc, program.prog(), input, steps_of(options))?;
    come_to(alloc, outcome)
}

// The same on what a file tells.
fn run_on_file<F: Files>(
    alloc: Global,
    options: &Options<'_>,
    program: &Accepted,
    name: &str,
    files: &mut F,
) -> Result<Prepared, NoMemory>
    ensures { IfOk result (λ due. AnswersRead
        (record { told = F.told files.old; faults_before = F.faults files.old; faults_now = F.faults files.new })
        (settings_of options.now) program.now name.now
        (record { out = due.out; err = due.err; status = due.status })) }
{
    match files.read(alloc, name, INPUT_LIMIT) {
        Ok(input) => {
            let input = input.as_slice();
            if input.len() > INPUT_LIMIT {
                return line_on_err(alloc, b"too large", Status::TooLarge);
            }
            run_serial(alloc, options, program, input)
        }
        Err(FileError::Failed) => line_on_err(alloc, b"read fault", Status::ReadFault),
        Err(FileError::NoMemory) => Err(NoMemory),
    }
}

// What `serial` answers to a program.
fn answer_program<F: Files>(
    alloc: Global,
    options: &Options<'_>,
    program: &Accepted,
    files: &mut F,
) -> Result<Prepared, NoMemory>
    ensures { IfOk result (λ due. AnswersInput
        (record { told = F.told files.old; faults_before = F.faults files.old; faults_now = F.faults files.new })
        (settings_of options.now) program.now (settings_of options.now).input
        (record { out = due.out; err = due.err; status = due.status })) }
{
    match options.input {
        Some(name) => run_on_file(alloc, options, program, name, files),
        None => run_serial(alloc, options, program, b""),
    }
}

fn answer_serial<F: Files>(
    alloc: Global,
    options: &Options<'_>,
    text: &[u8],
    files: &mut F,
) -> Result<Prepared, NoMemory>
    requires size { length text.now ≤ source_limit }
    requires count { IsTrue (is_count options.now.nodes) }
    ensures { IfOk result (λ due. AnswersSerial
        (record { told = F.told files.old; faults_before = F.faults files.old; faults_now = F.faults files.new })
        (settings_of options.now) text.now
        (record { out = due.out; err = due.err; status = due.status })) }
{
    match compile(alloc, text, nodes_of(options)) {
        Ok(program) => {
            let due = answer_program(alloc, options, &program, files);
            drop(program);
            due
        }
        Err(Fault::Refused(refusal)) => refused(alloc, refusal),
        Err(Fault::NoMemory) => Err(NoMemory),
    }
}

// ---- all forms

// What a command answers to a text.
fn answer_text<F: Files>(
    alloc: Global,
    command: Command,
    options: &Options<'_>,
    text: &[u8],
    files: &mut F,
) -> Result<Prepared, NoMemory>
    requires size { length text.now ≤ source_limit }
    requires count { IsTrue (is_count options.now.nodes) }
    ensures { IfOk result (λ due. AnswersText
        (record { told = F.told files.old; faults_before = F.faults files.old; faults_now = F.faults files.new })
        command (settings_of options.now) text.now
        (record { out = due.out; err = due.err; status = due.status })) }
{
    match command {
        Command::Check => answer_check(alloc, options, text),
        Command::Serial => answer_serial(alloc, options, text, files),
        Command::Run => answer_run(alloc, text),
    }
}

// What a form answers: its file is read, and its text answered to.
fn answer_form<F: Files>(
    alloc: Global,
    line: &CommandLine<'_>,
    files: &mut F,
) -> Result<Prepared, NoMemory>
    requires { IsTrue (is_count line.now.options.nodes) }
    ensures { IfOk result (λ due. AnswersForm
        (record { told = F.told files.old; faults_before = F.faults files.old; faults_now = F.faults files.new })
        (form_of line.now)
        (record { out = due.out; err = due.err; status = due.status })) }
{
    match files.read(alloc, line.file, SOURCE_LIMIT) {
        Ok(text) => {
            let text = text.as_slice();
            if text.len() > SOURCE_LIMIT {
                return line_on_err(alloc, b"too large", Status::TooLarge);
            }
            answer_text(alloc, line.command, &line.options, text, files)
        }
        Err(FileError::Failed) => line_on_err(alloc, b"read fault", Status::ReadFault),
        Err(FileError::NoMemory) => Err(NoMemory),
    }
}

/// Reads the words, and the files that they name, and prepares all that is to be written.
pub fn prepare<F: Files>(
    alloc: Global,
    words: &Vec<String>,
    files: &mut F,
) -> Result<Prepared, NoMemory>
    ensures { IfOk result (λ due. IsDue
        (record { told = F.told files.old; faults_before = F.faults files.old; faults_now = F.faults files.new })
        (map (λ w. string_bytes w) words.now.items)
        (record { out = due.out; err = due.err; status = due.status })) }
{
    match command_line(words.as_slice()) {
        Some(line) => answer_form(alloc, &line, files),
        None => line_on_err(alloc, b"usage", Status::Usage),
    }
}
