ghost use Rattle.std.specs.Prelude.{◌≡◌, ◌≤◌, All, IfErr, IfOk, MatchResult, length};
ghost use Rattle.fdp_base.specs.Config.{IsValidConfig};
ghost use Rattle.fdp_io.specs.Bench.{SameFlashes, SameTexts};
ghost use Rattle.fdp_make.specs.Load.{make_config, make_traces};
ghost use Rattle.fdp_trace.specs.Numbers.{value_of};
ghost use Rattle.fdp_finding.specs.Configured.{ReadsConfig};
ghost use Rattle.fdp_finding.specs.CommandLine.{AreFew, Counts, as_audit, as_names};
ghost use Rattle.fdp_finding.specs.Traced.{IsServable};
ghost use Rattle.fdp_finding.specs.Wanted.{AuditLacks, ConfigLacks, CountsSource, Finds, HasRecords, HasTexts, Lacks, TextsLack, commands_of, texts_in};
ghost use Rattle.fdp_finding.specs.Task.{AuditsIf, CanBegin, IsLoad, ServesIf, sought_of};

use crate::asked::{AuditAsked, Form, LoadAsked, NamesAsked, NotAsked, Request, Texts, asked};
use crate::fault::Fault;
use crate::records::find_records;
use crate::traces::find_traces;
use fdp_base::{Command, DriveConfig, LONGEST_CONFIG};
use fdp_config::{NoConfig, read_config};
use fdp_io::{Bench, TextRead};
use std::alloc::Global;

/// The form of a run, a configuration, the name of an image, and the commands of each trace or stream, the first for queue 1.
#[derive(Debug, Drop)]
pub struct Wanted<'a> {
    pub form: Form<'a>,
    pub config: DriveConfig,
    pub image: &'a str,
    pub traces: Vec<Vec<Command>>,
}

/// A configuration, and the texts that are to be the records of runs that followed one another on an image of its drive, which was new before the first.
#[derive(Debug, Drop)]
pub struct Audited {
    pub config: DriveConfig,
    pub texts: Vec<Vec<u8>>,
}

/// What is to be done, with all that was found for it.
#[derive(Debug, Drop)]
pub enum Task<'a> {
    /// To serve traces or streams.
    Serve(Wanted<'a>),
    /// To judge records.
    Audit(Audited),
}

/// What the words ask for, with the texts that they name.
pub fn find<'a, B: Bench>(
    alloc: Global,
    words: &'a [String],
    bench: &mut B,
) -> Result<Task<'a>, Fault>
    ensures texts { SameTexts (B.state bench.old) (B.state bench.new) }
    ensures flashes { SameFlashes (B.state bench.old) (B.state bench.new) }
    ensures faults { (B.state bench.old).faults ≤ (B.state bench.new).faults }
    ensures counts { MatchResult result
        (λ _. (B.state bench.new).faults ≡ (B.state bench.old).faults)
        (λ fault. CountsSource (B.state bench.old).faults (B.state bench.new).faults fault) }
    ensures answer { MatchResult result
        (λ task. Finds (B.state bench.old) words.now (sought_of task))
        (λ fault. Lacks (B.state bench.old) (B.state bench.new) words.now fault) }
    ensures begins { IfOk result CanBegin }
{
    match asked(alloc, words) {
        Ok(Request::Run(names)) => find_texts(alloc, Form::Run, Texts::Traces, names, bench),
        Ok(Request::Record(names)) => {
            find_texts(alloc, Form::Record, Texts::Traces, names, bench)
        }
        Ok(Request::Stream(names)) => {
            find_texts(alloc, Form::Stream, Texts::Streams, names, bench)
        }
        Ok(Request::StreamRecord(names)) => {
            find_texts(alloc, Form::StreamRecord, Texts::Streams, names, bench)
        }
        Ok(Request::Make(load)) => find_load(alloc, load),
        Ok(Request::Audit(audit)) => find_audit(alloc, audit, bench),
        Err(NotAsked::Usage) => Err(Fault::Usage),
        Err(NotAsked::NoMemory) => Err(Fault::NoMemory),
    }
}

/// What the texts of these names come to.
fn find_texts<'a, B: Bench>(
    alloc: Global,
    form: Form<'a>,
    texts: Texts,
    names: NamesAsked<'a>,
    bench: &mut B,
) -> Result<Task<'a>, Fault>
    ensures texts { SameTexts (B.state bench.old) (B.state bench.new) }
    ensures flashes { SameFlashes (B.state bench.old) (B.state bench.new) }
    ensures faults { (B.state bench.old).faults ≤ (B.state bench.new).faults }
    ensures counts { MatchResult result
        (λ _. (B.state bench.new).faults ≡ (B.state bench.old).faults)
        (λ fault. CountsSource (B.state bench.old).faults (B.state bench.new).faults fault) }
    ensures answer { MatchResult result
        (ServesIf (λ found. (found.form ≡ form.entry) × HasTexts texts (B.state bench.old) (as_names names.entry) found.config found.image.now (commands_of found.traces.items)))
        (λ fault. TextsLack texts (B.state bench.old) (B.state bench.new) (as_names names.entry) fault) }
    ensures begins { IfOk result CanBegin }
{
    let config = find_config(alloc, names.config, bench)?;
    match find_traces(alloc, texts, &names.traces, &config, bench) {
        Ok(traces) => Ok(Task::Serve(Wanted {
            form,
            config,
            image: names.image,
            traces,
        })),
        Err(fault) => Err(fault),
    }
}

/// A generated load: it has a drive and traces of its own.
fn find_load<'a>(alloc: Global, load: LoadAsked<'a>) -> Result<Task<'a>, Fault>
    requires { Counts load }
    ensures load { IfOk result (ServesIf (IsLoad load.entry)) }
    ensures begins { IfOk result CanBegin }
    ensures fault { IfErr result (λ fault. fault ≡ Fault.NoMemory) }
{
    let Ok(config) = fdp_make::config(alloc) else {
        return Err(Fault::NoMemory);
    };
    let Ok(traces) = fdp_make::traces(alloc, load.commands) else {
        return Err(Fault::NoMemory);
    };
    Ok(Task::Serve(Wanted {
        form: Form::Make(load.number),
        config,
        image: load.image,
        traces,
    }))
}

/// A configuration, and the texts of records.
fn find_audit<'a, B: Bench>(
    alloc: Global,
    audit: AuditAsked<'a>,
    bench: &mut B,
) -> Result<Task<'a>, Fault>
    requires { AreFew audit }
    ensures texts { SameTexts (B.state bench.old) (B.state bench.new) }
    ensures flashes { SameFlashes (B.state bench.old) (B.state bench.new) }
    ensures faults { (B.state bench.old).faults ≤ (B.state bench.new).faults }
    ensures counts { MatchResult result
        (λ _. (B.state bench.new).faults ≡ (B.state bench.old).faults)
        (λ fault. CountsSource (B.state bench.old).faults (B.state bench.new).faults fault) }
    ensures answer { MatchResult result
        (AuditsIf (λ found. HasRecords (B.state bench.old) (as_audit audit.entry) found.config (texts_in found.texts.items)))
        (λ fault. AuditLacks (B.state bench.old) (B.state bench.new) (as_audit audit.entry) fault) }
    ensures begins { IfOk result CanBegin }
{
    let config = find_config(alloc, audit.config, bench)?;
    match find_records(alloc, &audit.texts, bench) {
        Ok(texts) => Ok(Task::Audit(Audited { config, texts })),
        Err(fault) => Err(fault),
    }
}

/// The configuration of this name.
fn find_config<B: Bench>(alloc: Global, name: &str, bench: &mut B) -> Result<DriveConfig, Fault>
    ensures texts { SameTexts (B.state bench.old) (B.state bench.new) }
    ensures flashes { SameFlashes (B.state bench.old) (B.state bench.new) }
    ensures faults { (B.state bench.old).faults ≤ (B.state bench.new).faults }
    ensures counts { MatchResult result
        (λ _. (B.state bench.new).faults ≡ (B.state bench.old).faults)
        (λ fault. CountsSource (B.state bench.old).faults (B.state bench.new).faults fault) }
    ensures answer { MatchResult result
        (λ c. ReadsConfig (B.state bench.old) name.now c)
        (λ fault. ConfigLacks (B.state bench.old) (B.state bench.new) name.now fault) }
    ensures valid { IfOk result IsValidConfig }
{
    let mut text = Vec::new(alloc);
    match bench.read_text(name, &mut text, LONGEST_CONFIG) {
        TextRead::Done => match read_config(alloc, text.as_slice()) {
            Ok(config) => Ok(config),
            Err(fault) => Err(Fault::from(fault)),
        },
        TextRead::Missing => Err(Fault::Config(NoConfig::Absent)),
        TextRead::TooLong => Err(Fault::Config(NoConfig::TooLong)),
        TextRead::Failed => Err(Fault::Source),
        TextRead::NoMemory => Err(Fault::NoMemory),
    }
}
