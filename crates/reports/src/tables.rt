// A chart as the table that a fitter holds beside a path.
ghost use Rattle.std.specs.Prelude.{◌≡◌, ℕ, ◌≤◌, List, ◌++◌, Some, true, length, IfOk, string_bytes};
ghost use Rattle.std.specs.Fmt.{WritesOnOk};
ghost use Rattle.charts.specs.Held.{fits};
ghost use Rattle.reports.specs.Texts.{state_line, arc_line, lines, table, report};

use crate::lines::refusal_line;
use charts::Chart;
use std::alloc::{AllocError, Global};
use std::fmt;

// A file of this many bytes is too long for a chart, whatever follows, so no more of it need be read.
pub const ENOUGH: u64 = 8193;

// A chart that is printed as its table.
#[derive(Clone, Copy)]
struct Printed<'a>(&'a Chart);

impl fmt::Display for Printed<'_> {
    ghost output = { λ p. Some (table p.0.now) };

    fn fmt<W: fmt::Write>(&self, f: &mut fmt::Formatter<W>) -> fmt::Result {
        let chart = self.0;
        let states = chart.states();
        let letters = chart.letters();
        let arcs = chart.arcs();
        writeln!(f, "chart {states} states, {letters} letters, {arcs} arcs")?;
        write_states(f, chart)?;
        write_arcs(f, chart)
    }
}

// A state, and whether paths begin and end there.
fn write_state<W: fmt::Write>(f: &mut fmt::Formatter<W>, chart: &Chart, state: usize) -> fmt::Result
    ensures { WritesOnOk W.write_str_gives f.old result (state_line chart.now state) f.new }
{
    let start = if chart.is_start(state) { " start" } else { "" };
    let end = if chart.is_end(state) { " end" } else { "" };
    writeln!(f, "state {state}{start}{end}")
}

// Writes a line for each state.
fn write_states<W: fmt::Write>(f: &mut fmt::Formatter<W>, chart: &Chart) -> fmt::Result
    ensures { WritesOnOk W.write_str_gives f.old result (lines (state_line chart.now) chart.now.states) f.new }
{
    // By number, which is what a state has and what the line begins with.
    for state in 0..chart.states() {
        write_state(f, chart, state)?;
    }
    Ok(())
}

// Writes a line for each arc.
fn write_arcs<W: fmt::Write>(f: &mut fmt::Formatter<W>, chart: &Chart) -> fmt::Result
    ensures { WritesOnOk W.write_str_gives f.old result (lines (arc_line chart.now) (length chart.now.arc_rows)) f.new }
{
    for (number, arc) in chart.arcs_in_order().enumerate() {
        writeln!(f, "arc {number}: {arc}")?;
    }
    Ok(())
}

// The table of a chart.
pub fn chart_table(alloc: Global, chart: &Chart) -> Result<String, AllocError>
    ensures text { IfOk result (λ s. string_bytes s ≡ table chart.now) }
    ensures rows { length chart.now.state_rows ≡ chart.now.states }
    ensures fits { fits chart.now ≡ true }
{
    // Asked for what it promises of the chart, so that a caller knows how long the text can be.
    let _ = chart.states();
    Printed(chart).to_string(alloc)
}

// The table of the chart that a file holds, or its refusal. Of a long file the front is enough, whatever follows it.
pub fn chart_report(alloc: Global, file: &[u8]) -> Result<String, AllocError>
    ensures text { IfOk result (λ s. string_bytes s ≡ report file.now) }
    ensures enough { 8193 ≤ length file.now → (more : List ℕ) → IfOk result (λ s. string_bytes s ≡ report (file.now ++ more)) }
{
    match Chart::read(file) {
        Ok(chart) => chart_table(alloc, &chart),
        Err(refusal) => refusal_line(alloc, refusal),
    }
}
