// The square root and the parameters of a pair.
ghost use Rattle.std.specs.Prelude.{◌≡◌};
ghost use Rattle.root.specs.Exact.{sqrt_answer};
ghost use Rattle.rotation.specs.Exact.{found_of};
ghost use Rattle.capi.specs.Calls.{of_root, of_parameters};

#[unsafe(no_mangle)]
pub extern "C" fn weimrukas_root(x: f64, found: &mut f64, exact: &mut u8) -> u8
    ensures { (result, found.new, exact.new) ≡ of_root (sqrt_answer x) found.old exact.old }
{
    match root::sqrt(x) {
        Ok(root) => {
            *found = root.value;
            *exact = root.exact as u8;
            0
        }
        Err(refused) => u8::from(refused),
    }
}

#[tactic(auto, unfolding(crate::specs::Calls::of_parameters))]
#[unsafe(no_mangle)]
pub extern "C" fn weimrukas_parameters(
    a: f64,
    d: f64,
    b: f64,
    turn: &mut u8,
    t: &mut f64,
    c: &mut f64,
    s: &mut f64,
    exact: &mut u8,
)
    ensures { (turn.new, t.new, c.new, s.new, exact.new) ≡ of_parameters (found_of a d b) }
{
    let found = rotation::of_pair(a, d, b);
    let record = step_records::of_found(found);
    *turn = runs::is_turn(found.parameters) as u8;
    *t = crate::answers::canonical(record.t);
    *c = crate::answers::canonical(record.c);
    *s = crate::answers::canonical(record.s);
    *exact = found.exact as u8;
}
