ghost use Rattle.std.specs.Prelude.{◌≡◌, ◌≢◌, MatchResult, None, OnOk, OnErr, Some};
ghost use Rattle.std.specs.BTreeMap.{get_by_text};
ghost use Rattle.std.specs.Option.{option_copied};
ghost use Rattle.fdp_base.specs.Geometry.{IsValidGeometry};
ghost use Rattle.fdp_flash.specs.FlashMem.{state_of};
ghost use Rattle.fdp_io.specs.Bench.{IsMadeFlash};
ghost use Rattle.fdp_io.specs.Berths.{SetsBerth};
ghost use Rattle.fdp_io.specs.Texts.{text_named};

use crate::bench::{Bench, NotTaken, TextRead};
use crate::calls::Calls;
use fdp_base::Geometry;
use fdp_flash::{FlashMem, Plan};
use std::alloc::{AllocError, Global};
use std::collections::BTreeMap;

#[derive(Debug, Drop)]
struct Text {
    name: String,
    bytes: Vec<u8>,
}

/// A bench in memory: it tells its texts and flashes, and lets chosen calls fail. A read looks through the texts in order.
#[derive(Debug, Drop)]
pub struct BenchMem {
    texts: Vec<Text>,
    /// The place of each flash, which is empty while it is out.
    berths: BTreeMap<String, Option<FlashMem>>,
    calls: Calls,
}

impl BenchMem {
    ghost use Rattle.fdp_io.specs.BenchMem.{bench_calls, bench_state, flash_on, IsEmptyBench, AddsText, LaysFlash};
    ghost use Rattle.fdp_io.specs.Bench.{SameFlashes};
    ghost use Rattle.fdp_io.specs.Calls.{no_call};

    /// A bench without texts and flashes, of which the calls with these numbers, counted from 1, fail.
    pub fn new(alloc: Global, failing: Vec<u64>) -> BenchMem
        ensures empty { IsEmptyBench (bench_state result) }
        ensures calls { bench_calls result ≡ no_call failing.items }
    {
        BenchMem {
            texts: Vec::new(alloc),
            berths: BTreeMap::new(alloc),
            calls: Calls::new(failing),
        }
    }

    /// Adds a text. Of two with one name the first counts.
    pub fn add(&mut self, alloc: Global, name: &str, text: &[u8]) -> Result<(), AllocError>
        ensures ok { OnOk result (AddsText (bench_state self.old) name.now text.now (bench_state self.new)) }
        ensures err { OnErr result (bench_state self.new ≡ bench_state self.old) }
        ensures flashes { SameFlashes (bench_state self.old) (bench_state self.new) }
        ensures calls { bench_calls self.new ≡ bench_calls self.old }
    {
        let name = String::from_str(alloc, name)?;
        let bytes = Vec::from_slice(alloc, text)?;
        self.texts.push(Text { name, bytes })?;
        Ok(())
    }

    /// Lays a flash down under a name, in the place of what was there.
    pub fn lay_flash(
        &mut self,
        alloc: Global,
        name: &str,
        flash: FlashMem,
    ) -> Result<(), AllocError>
        ensures ok { OnOk result (LaysFlash (bench_state self.old) name.now flash (bench_state self.new)) }
        ensures calls { bench_calls self.new ≡ bench_calls self.old }
    {
        put(alloc, &mut self.berths, name, Some(flash))
    }

    /// The flash that lies there under a name.
    pub fn flash(&self, name: &str) -> Option<&FlashMem>
        ensures { option_copied result ≡ flash_on self.now name.now }
    {
        match self.berths.get(name) {
            Some(berth) => berth.as_ref(),
            None => None,
        }
    }
}

fn find<'a>(texts: &'a [Text], name: &str) -> Option<&'a [u8]>
    ensures { option_copied result ≡ text_named name.now texts.now }
{
    for text in texts {
        if text.name.as_str() == name {
            return Some(text.bytes.as_slice());
        }
    }
    None
}

impl Bench for BenchMem {
    type F = FlashMem;

    ghost use Rattle.std.specs.Prelude.{◌≤◌, IsTrue};
    ghost use Rattle.fdp_base.specs.Geometry.{IsValidGeometry};
    ghost use Rattle.fdp_flash.specs.FlashMem.{state_of};
    ghost use Rattle.fdp_io.specs.Bench.{CountsFailedRead, PutsBack, ReadsText, ReplacesOnDone, SameFlashes, SameTexts, TakesFlash, read_failed};
    ghost use Rattle.fdp_io.specs.BenchMem.{GivesAsPlanned, TakesAsPlanned, bench_calls, bench_state, take_failed};
    ghost use Rattle.fdp_io.specs.Calls.{MakesCall};

    ghost state = { bench_state };

    fn faults(&self) -> u64 {
        self.calls.faults()
    }

    fn read_text(&mut self, name: &str, into: &mut Vec<u8>, limit: u64) -> TextRead
        ensures kept { SameTexts (bench_state self.old) (bench_state self.new) }
        ensures flashes { SameFlashes (bench_state self.old) (bench_state self.new) }
        ensures faults { (bench_state self.old).faults ≤ (bench_state self.new).faults }
        ensures counts { CountsFailedRead (bench_state self.old).faults (bench_state self.new).faults result }
        ensures replaces { ReplacesOnDone into.old.items into.new.items result }
        ensures answer { ReadsText (bench_state self.old) (bench_state self.new) name.now limit into.new.items result }
        ensures calls { MakesCall (bench_calls self.old) (bench_calls self.new) (read_failed result) }
    {
        if self.calls.begin() {
            return TextRead::Failed;
        }
        let Some(text) = find(&self.texts, name) else {
            return TextRead::Missing;
        };
        if text.len() as u64 > limit {
            return TextRead::TooLong;
        }
        match Vec::from_slice(*into.allocator(), text) {
            Ok(copy) => {
                *into = copy;
                TextRead::Done
            }
            Err(_) => TextRead::NoMemory,
        }
    }

    /// A flash that is made has an empty plan: no call of it is to fail.
    fn take_flash(
        &mut self,
        alloc: Global,
        name: &str,
        geometry: Geometry,
    ) -> Result<FlashMem, NotTaken>
        requires { IsValidGeometry geometry }
        ensures texts { SameTexts (bench_state self.old) (bench_state self.new) }
        ensures faults { (bench_state self.old).faults ≤ (bench_state self.new).faults }
        ensures answer { TakesFlash state_of (bench_state self.old) (bench_state self.new) name.now geometry result }
        ensures planned { TakesAsPlanned self.old self.new name.now (take_failed result) }
    {
        if self.calls.begin() {
            return Err(NotTaken::Failed);
        }
        match empty(&mut self.berths, name) {
            Some(Some(flash)) => Ok(flash),
            Some(None) => {
                self.calls.fail();
                Err(NotTaken::Failed)
            }
            None => make(alloc, &mut self.berths, name, geometry),
        }
    }

    fn give_flash(&mut self, name: &str, flash: FlashMem)
        requires { IsTrue ((bench_state self.old).is_out name.now) }
        ensures texts { SameTexts (bench_state self.old) (bench_state self.new) }
        ensures faults { (bench_state self.old).faults ≤ (bench_state self.new).faults }
        ensures back { PutsBack (bench_state self.old) (bench_state self.new) name.now (state_of flash) }
        ensures planned { GivesAsPlanned self.old self.new }
    {
        self.calls.begin();
        fill(&mut self.berths, name, flash);
    }
}

/// Takes out what lies in a berth.
fn empty(berths: &mut BTreeMap<String, Option<FlashMem>>, name: &str) -> Option<Option<FlashMem>>
    ensures value { result ≡ get_by_text berths.old name.now }
    ensures emptied { result ≢ None → SetsBerth berths.old berths.new name.now None }
    ensures none { result ≡ None → get_by_text berths.new ≡ get_by_text berths.old }
{
    match berths.get_mut(name) {
        Some(berth) => Some(berth.take()),
        None => None,
    }
}

/// Puts a flash into a berth.
fn fill(berths: &mut BTreeMap<String, Option<FlashMem>>, name: &str, flash: FlashMem)
    requires { get_by_text berths.old name.now ≢ None }
    ensures { SetsBerth berths.old berths.new name.now (Some flash) }
{
    match berths.get_mut(name) {
        Some(berth) => *berth = Some(flash),
        // A flash that was handed out has its berth.
        None => unreachable!(),
    }
}

/// Makes a berth of this name that holds this.
fn put(
    alloc: Global,
    berths: &mut BTreeMap<String, Option<FlashMem>>,
    name: &str,
    berth: Option<FlashMem>,
) -> Result<(), AllocError>
    ensures ok { OnOk result (SetsBerth berths.old berths.new name.now berth) }
    ensures err { OnErr result (get_by_text berths.new ≡ get_by_text berths.old) }
{
    let name = String::from_str(alloc, name)?;
    berths.insert(name, berth)?;
    Ok(())
}

/// Makes a blank flash, and an empty berth for it.
fn make(
    alloc: Global,
    berths: &mut BTreeMap<String, Option<FlashMem>>,
    name: &str,
    geometry: Geometry,
) -> Result<FlashMem, NotTaken>
    requires { IsValidGeometry geometry }
    ensures { MatchResult result
        (λ flash. IsMadeFlash geometry (state_of flash) × SetsBerth berths.old berths.new name.now None)
        (λ refusal. (refusal ≡ NotTaken.NoMemory) × (get_by_text berths.new ≡ get_by_text berths.old)) }
{
    match blank(alloc, geometry) {
        Ok(flash) => match put(alloc, berths, name, None) {
            Ok(()) => Ok(flash),
            Err(_) => Err(NotTaken::NoMemory),
        },
        Err(refusal) => Err(refusal),
    }
}

/// A blank flash, of which no call is to fail.
fn blank(alloc: Global, geometry: Geometry) -> Result<FlashMem, NotTaken>
    requires { IsValidGeometry geometry }
    ensures { MatchResult result
        (λ flash. IsMadeFlash geometry (state_of flash))
        (λ refusal. refusal ≡ NotTaken.NoMemory) }
{
    match FlashMem::new(alloc, geometry, Plan::empty(alloc)) {
        Ok(flash) => Ok(flash),
        Err(_) => Err(NotTaken::NoMemory),
    }
}
