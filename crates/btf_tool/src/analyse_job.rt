//! The job `analyse`.

ghost use Rattle.std.specs.Prelude.{IfOk};
ghost use Rattle.bip_graph.specs.Answers.{AreOfVersion, IsMaximumOrLeast};
ghost use Rattle.bip_graph.specs.Decompositions.{Decomposes, HasParts};
ghost use Rattle.btf_text.specs.Reports.{components_in};
ghost use Rattle.btf_words.specs.Choices.{are_least, number_of};
ghost use Rattle.btf_words.specs.declared.jobs.Job.TheVariants.{Analyse};
ghost use Rattle.sp_ports.specs.Device.{seen};
ghost use Rattle.btf_tool.specs.Jobs.{GavePrefix, OfReading};
ghost use Rattle.btf_tool.specs.Runs.{JobSays};

use crate::decompose::{decompose, matched_parts_for};
use crate::engines::least_if_asked;
use crate::matrix::matrix_of;
use crate::reading::read_file;
use crate::writing::hand_on;
use crate::{Answer, Refusal};
use bip_graph::{Components, Decomposition, Matching, Parts};
use btf_text::{TextBuf, write_report};
use btf_words::{EngineChoice, ReportOptions, Version};
use dm_coarse::components;
use sp_ids::OutOfMemory;
use sp_pattern::Pattern;
use sp_ports::{Gate, Sink, Source};
use std::alloc::Global;
use std::thread::Threads;

/// What an analysis is asked for: which engine searches, what its report has, and whether zeros are dropped.
#[derive(Clone, Copy)]
pub(crate) struct Options {
    pub(crate) choice: EngineChoice,
    pub(crate) report: ReportOptions,
    pub(crate) drop_zeros: bool,
}

/// What a report is written from.
#[derive(Drop)]
struct Analysis {
    matching: Matching,
    decomposition: Decomposition,
    components: Option<Components>,
}

/// Reads a matrix and writes the report of its decomposition.
pub(crate) fn analyse<R: Threads + Sync, S: Source, O: Sink, G: Gate>(
    rt: &R,
    alloc: Global,
    options: Options,
    input: &mut S,
    out: &mut O,
    gate: &G,
) -> Result<Answer, Refusal>
    ensures says { JobSays (Analyse options.choice options.report options.drop_zeros)
        (seen S.left S.faults input.old input.new) (seen O.taken O.faults out.old out.new) result }
    ensures gave { OfReading (seen S.left S.faults input.old input.new) GavePrefix }
{
    let triples = read_file(alloc, input)?;
    let pattern = matrix_of(rt, alloc, &triples, options.drop_zeros)?;
    drop(triples);
    let report = options.report;
    let analysis = analysis_of(rt, alloc, &pattern, options, gate)?;
    analysis.matching.is_matching();
    let mut buf = TextBuf::new(alloc)?;
    let written = write_report(
        out,
        &mut buf,
        &analysis.decomposition,
        analysis.components.as_ref(),
        &analysis.matching,
        report.order,
        report.pairs.are_listed(),
    );
    hand_on(out, written)?;
    Ok(Answer::Positive)
}

/// The decomposition of a matrix by a maximum matching, which is the least one where the report
/// wants it, and the components where it has them.
fn analysis_of<R: Threads + Sync, G: Gate>(
    rt: &R,
    alloc: Global,
    pattern: &Pattern,
    options: Options,
    gate: &G,
) -> Result<Analysis, OutOfMemory>
    ensures decomposes { IfOk result (λ a. Decomposes pattern.now a.decomposition) }
    ensures least { IfOk result
        (λ a. IsMaximumOrLeast pattern.now (are_least options.report.pairs) a.matching.pairs) }
    ensures of_version { IfOk result
        (λ a. AreOfVersion pattern.now (number_of options.report.version)
        (components_in a.components)) }
{
    let (choice, least) = (options.choice, options.report.pairs.are_least());
    let (found, parts) = matched_parts_for(rt, alloc, pattern, choice, least, gate)?;
    let matching = least_if_asked(alloc, pattern, found, &parts, least)?;
    let decomposition = decompose(alloc, pattern, &matching, parts)?;
    let components = components_for(alloc, options.report.version, pattern, &decomposition.parts)?;
    Ok(Analysis {
        matching,
        decomposition,
        components,
    })
}

/// The connected components of the outer parts, where this version of the report has them.
fn components_for(
    alloc: Global,
    version: Version,
    pattern: &Pattern,
    parts: &Parts,
) -> Result<Option<Components>, OutOfMemory>
    requires { HasParts pattern.now parts.now }
    ensures { IfOk result (λ c. AreOfVersion pattern.now (number_of version) (components_in c)) }
{
    match version {
        Version::One => Ok(None),
        Version::Two => Ok(Some(components(alloc, pattern, parts)?)),
    }
}
