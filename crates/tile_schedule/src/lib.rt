#![tactic(auto)]
// What a tile does in a tick, by its distance from the diagonal, and what a tick of the array answers (document 01, "The array").
ghost use Rattle.std.specs.Prelude.{◌≡◌, ◌<◌, IfSome};
ghost use Rattle.systolic.specs.Tiles.{distance, action, action_at, step_at, phase_in};
ghost use Rattle.systolic.specs.Traffic.{rotates, reads_cells, changes_cells};
ghost use Rattle.tile_schedule.specs.Schedule.{the_action, phase_number, in_step};
ghost use Rattle.tile_schedule.specs.Answers.{progress_answered, progress_of, left_of};

use refusal::Refusal;

// Nothing; the first rotation, which reads no cells; a later one; the two phases after a rotation; the last reading.
#[derive(Clone, Copy, PartialEq, Eq, Debug)]
pub enum Action {
    Idle,
    First,
    Rotate,
    Phase1,
    Phase2,
    Final,
}

// What a tick answers that is not refused.
#[derive(Clone, Copy, PartialEq, Eq, Debug)]
pub enum Progress {
    Made,
    Stopped,
}

// Whether the cells of the tile in row i and column j, from 0, change in a tick.
// Stays two numbers, here and below: the struct for a tile's place also holds the last row and column, on which nothing here depends.
pub fn changes(steps: usize, tick: usize, i: usize, j: usize) -> bool
    ensures { result ≡ changes_cells (action_at steps (distance i j) tick) }
{
    let action = action_at(steps, i, j, tick);
    rotates(action) || reads(action)
}

// The step that the tiles on the diagonal are in.
#[tactic(auto, unfolding(systolic::specs::Tiles::step_at))]
pub fn diagonal_step(tick: usize) -> usize
    ensures { result ≡ step_at 0 tick }
{
    tick / 3
}

// What the tile in row i and column j, from 0, does in a tick.
#[tactic(auto, unfolding(systolic::specs::Tiles::action_at))]
pub fn action_at(steps: usize, i: usize, j: usize, tick: usize) -> Action
    ensures { the_action result ≡ action_at steps (distance i j) tick }
{
    match tick.checked_sub(distance(i, j)) {
        Some(since) => action_since(steps, since),
        None => Action::Idle,
    }
}

// Whether the cells are turned.
pub fn rotates(action: Action) -> bool
    ensures { result ≡ rotates (the_action action) }
{
    matches!(action, Action::First | Action::Rotate)
}

// Whether the cell wires are read.
pub fn reads(action: Action) -> bool
    ensures { result ≡ reads_cells (the_action action) }
{
    matches!(action, Action::Rotate | Action::Final)
}

// The phase in which wires are set, if any are.
#[tactic(auto, unfolding(systolic::specs::Tiles::phase_in))]
pub fn phase_in(action: Action) -> Option<usize>
    ensures number { phase_number result ≡ phase_in (the_action action) }
    ensures upper_bound { IfSome result (λ phase. phase < 3) }
{
    match action {
        Action::First | Action::Rotate => Some(0),
        Action::Phase1 => Some(1),
        Action::Phase2 => Some(2),
        Action::Idle | Action::Final => None,
    }
}

// The distance from the diagonal of the tile in row i and column j.
pub fn distance(i: usize, j: usize) -> usize
    ensures { result ≡ distance i j }
{
    i.abs_diff(j)
}

// So many ticks after the tile's first rotation.
#[tactic(auto, unfolding(systolic::specs::Tiles::action, crate::specs::Schedule::in_step))]
fn action_since(steps: usize, since: usize) -> Action
    ensures { the_action result ≡ action steps since }
{
    if since / 3 < steps {
        in_step(since)
    } else if since % 3 == 0 && since / 3 == steps && steps > 0 {
        Action::Final
    } else {
        Action::Idle
    }
}

// While there are steps to do.
#[tactic(auto, unfolding(crate::specs::Schedule::in_step))]
fn in_step(since: usize) -> Action
    ensures { the_action result ≡ in_step since }
{
    match (since % 3, since / 3) {
        (0, 0) => Action::First,
        (0, _) => Action::Rotate,
        (1, _) => Action::Phase1,
        _ => Action::Phase2,
    }
}

// What a tick of an array with this order, these sweeps and this tick answers.
#[tactic(auto, using(sizes::proofs::Orders::sizes_given), unfolding(crate::specs::Answers::progress_of))]
pub fn answer_to(n: usize, sweeps: usize, tick: usize) -> Result<Progress, Refusal>
    ensures { progress_answered result ≡ progress_of n sweeps tick }
{
    sizes::tested(n, sweeps)?;
    if tick < sizes::ticks_of(n, sweeps) {
        Ok(Progress::Made)
    } else {
        Ok(Progress::Stopped)
    }
}

// How many ticks are still made.
#[tactic(auto, using(crate::proofs::Answers::made_means), unfolding(crate::specs::Answers::left_of))]
pub fn ticks_left(n: usize, sweeps: usize, tick: usize) -> usize
    ensures { result ≡ left_of n sweeps tick }
{
    match answer_to(n, sweeps, tick) {
        Ok(Progress::Made) => sizes::ticks_of(n, sweeps) - tick,
        Ok(Progress::Stopped) | Err(_) => 0,
    }
}
