// What a run of the array takes.
ghost use Rattle.std.specs.Prelude.{◌≡◌};
ghost use Rattle.forecast.specs.Forecast.{forecast_of};
ghost use Rattle.capi.specs.Calls.{number_and_value, figures};

#[tactic(auto, unfolding(crate::specs::Calls::number_and_value, crate::specs::CAnswers::number_answered))]
#[unsafe(no_mangle)]
pub extern "C" fn weimrukas_forecast(
    n: usize,
    sweeps: usize,
    ticks: &mut usize,
    values: &mut usize,
    parameters: &mut usize,
) -> u8
    ensures { (result, figures ticks.new values.new parameters.new)
        ≡ number_and_value (forecast_of n sweeps) (figures ticks.old values.old parameters.old) }
{
    match forecast::of_run(n, sweeps) {
        Ok(figures) => {
            *ticks = figures.ticks;
            *values = figures.values;
            *parameters = figures.parameters;
            0
        }
        Err(refused) => u8::from(refused),
    }
}
