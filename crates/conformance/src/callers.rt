// What a caller can rest on of a chart or a machine: each of these functions is proved by the contracts alone.
ghost use Rattle.std.specs.Prelude.{◌≡◌, false};
ghost use Rattle.std.specs.Result.{result_map_both};
ghost use Rattle.charts.specs.Format.{decoded};

use crate::files::SAMPLE;
use charts::{Arcs, Chart, LentChart, Refusal};
use machines::Machine;
use std::test::Fail;
use weights::count::Count;

// A chart outlives the bytes that it was read from.
fn read_own_bytes() -> Result<Chart, Refusal> {
    let file = [0, 1, 0, 1, 0, 0, 0, 12, 0, 12, 0, 13, 3];
    Chart::read(&file)
}

// The arcs of a file outlive the chart that was read from it.
fn arcs_of<'a>(file: &'a [u8]) -> Result<Arcs<'a>, Refusal>
    ensures { result ≡ result_map_both (λ c. c.arc_rows) (λ e. e) (decoded file.now) }
{
    Ok(LentChart::read(file)?.arcs_in_order())
}

// The state past the last is no start, and no end.
fn is_marked_past_the_last(chart: &Chart) -> bool
    ensures { result ≡ false }
{
    let past = chart.states();
    chart.is_start(past) || chart.is_end(past)
}

// Where an arc leads is below 32.
fn marked_where_it_leads(chart: &Chart, number: usize, marks: &[bool; 32]) -> bool {
    if number < chart.arcs() {
        match chart.arc(number) {
            Some(arc) => marks[usize::from(arc.to)],
            None => false,
        }
    } else {
        false
    }
}

// A machine has a state, so its first start weight is there.
fn first_start<K: Copy>(machine: &Machine<K>) -> K {
    machine.starts()[0]
}

#[test]
fn callers_rest_on_contracts(rt: HostRuntime) -> Result<(), Fail> {
    let chart = read_own_bytes()?;
    assert!(rt; chart.is_start(0) && chart.is_end(0));
    assert!(rt; !is_marked_past_the_last(&chart));
    let chart = Chart::read(SAMPLE)?;
    assert_eq!(rt; arcs_of(SAMPLE)?.count(), 5);
    assert_eq!(rt; arcs_of(&SAMPLE[1..]).err(), Some(Refusal::Total));
    assert!(rt; marked_where_it_leads(&chart, 0, &[true; 32]));
    assert!(rt; !marked_where_it_leads(&chart, 5, &[true; 32]));
    let table = [Count(7), Count(8), Count(9)];
    let machine = Machine::new(1, 1, &table)?;
    assert_eq!(rt; first_start(&machine), Count(7));
    Ok(())
}
