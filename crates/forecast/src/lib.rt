#![tactic(auto)]
// What a run of the array takes, told from its order and its sweeps alone (document 02 (iii)).
ghost use Rattle.std.specs.Prelude.{◌≡◌, true, ◌≤◌};
ghost use Rattle.sizes.specs.Sizes.{most_sweeps, is_order};
ghost use Rattle.forecast.specs.Forecast.{forecast_answered, figures_of, forecast_of};

use refusal::Refusal;

// The ticks, the values of the matrix and of the eigenvectors that are set on cell wires, and the parameters that tiles
// off the diagonal receive.
#[derive(Clone, Copy)]
pub struct Figures {
    pub ticks: usize,
    pub values: usize,
    pub parameters: usize,
}

// The figures of a run of order n.
#[tactic(auto, unfolding(crate::specs::Forecast::forecast_of))]
pub fn of_run(n: usize, sweeps: usize) -> Result<Figures, Refusal>
    ensures { forecast_answered result ≡ forecast_of n sweeps }
{
    sizes::tested(n, sweeps)?;
    Ok(figures_of(n, sweeps))
}

// The figures of a run that is not refused. In a step every tile rotates once and sets four wires, which carry two values each, and
// a tile off the diagonal receives two parameters.
fn figures_of(n: usize, sweeps: usize) -> Figures
    requires { (is_order n ≡ true) × (sweeps ≤ most_sweeps) }
    ensures { result ≡ figures_of n sweeps }
{
    let processors = sizes::processors_of(n);
    let steps = sizes::steps_of(n, sweeps);
    let rotations = processors * processors * steps;
    let off_diagonal = processors * (processors - 1) * steps;
    Figures {
        ticks: sizes::ticks_of(n, sweeps),
        values: 8 * rotations,
        parameters: 2 * off_diagonal,
    }
}
