//! The page of the gates' values (in the format of Prometheus).
ghost use Rattle.std.specs.Prelude.{◌≡◌, ◌++◌, IfOk, codes, string_bytes};
ghost use Rattle.gate_spec.specs.Stages.{stage_word};
ghost use Rattle.discovery.specs.Metrics.{value_digit, metrics_head, metric_line, metric_lines, metrics_page};

use basis::Memory;
use gate_flags::GateRow;
use gate_spec::Stage;
use minor_version::Blob;
use release_view::View;
use std::alloc::{AllocError, Global};

// The stage as a history document writes it.
fn stage_word(stage: Stage) -> &'static str
    ensures { result.now ≡ stage_word stage }
{
    match stage {
        Stage::Alpha => "ALPHA",
        Stage::Beta => "BETA",
        Stage::Ga => "",
        Stage::Deprecated => "DEPRECATED",
    }
}

fn value_digit(value: bool) -> &'static str
    ensures { result.now ≡ value_digit value }
{
    if value { "1" } else { "0" }
}

fn line_with(alloc: Global, name: &str, stage: &str, digit: &str) -> Result<String, AllocError>
    ensures { IfOk result (λ s.
        string_bytes s
        ≡ codes "kubernetes_feature_enabled{name=\""
        ++ (name.now ++ (codes "\",stage=\"" ++ (stage.now
        ++ (codes "\"} " ++ (digit.now ++ codes "\n")))))) }
{
    format!(in alloc; "kubernetes_feature_enabled{{name=\"{name}\",stage=\"{stage}\"}} {digit}\n")
}

fn metric_line(alloc: Global, row: &GateRow) -> Result<String, AllocError>
    ensures { IfOk result (λ s. string_bytes s ≡ metric_line row.now) }
{
    let name = row.name.as_str();
    let stage = stage_word(row.stage);
    line_with(alloc, name, stage, value_digit(row.value))
}

fn metric_lines(alloc: Global, rows: &[GateRow]) -> Result<String, Memory>
    ensures { IfOk result (λ s. string_bytes s ≡ metric_lines rows.now) }
{
    let mut text = String::new(alloc);
    for row in rows {
        let line = metric_line(alloc, row)?;
        text.push_str(line.as_str())?;
    }
    Ok(text)
}

fn metrics_text(alloc: Global, lines: &str) -> Result<String, AllocError>
    ensures { IfOk result (λ s. string_bytes s ≡ metrics_head ++ lines.now) }
{
    format!(in alloc;
        "# HELP kubernetes_feature_enabled Whether a feature gate is on at the emulated version.\n# TYPE kubernetes_feature_enabled gauge\n{lines}"
    )
}

/// The page of the gates that the release knows, by name, each with its stage and value.
pub fn metrics(alloc: Global, view: &View) -> Result<Blob, Memory>
    ensures { IfOk result (λ b. b ≡ metrics_page view.now) }
{
    let lines = metric_lines(alloc, view.gates().rows())?;
    let text = metrics_text(alloc, lines.as_str())?;
    Blob::copy(alloc, text.as_bytes())
}
