// How long a conversion takes, by its oversampling codes.
ghost use Rattle.std.specs.Prelude.{◌≡◌, ◌≤◌};
ghost use Rattle.paper.specs.Registers as reg;
ghost use Rattle.waiting.specs.Waiting.{samples as samplesOf, channel_part, figures as figuresOf, microseconds as microsecondsOf};

use crate::{Estimate, Figures};

// The samples that each code means.
const SAMPLES: [u8; 8] = [0, 1, 2, 4, 8, 16, 16, 16];

// The figures of the estimate.
pub(crate) fn figures_of(estimate: Estimate) -> Figures
    ensures { result ≡ figuresOf estimate }
{
    match estimate {
        Estimate::Maximum => Figures {
            base: 1250,
            sample: 2300,
            extra: 575,
        },
        Estimate::Typical => Figures {
            base: 1000,
            sample: 2000,
            extra: 500,
        },
    }
}

// The samples that a code of 0 to 7 means.
fn samples(code: u8) -> u8
    requires { code ≤ reg.last_code }
    ensures { result ≡ samplesOf code }
{
    SAMPLES[code as usize]
}

// A channel's part: so many microseconds for each sample, and the extra only if it has any.
fn channel_part(sample: u32, extra: u32, code: u8) -> u32
    requires { (sample ≤ 10000) × (extra ≤ 10000) × (code ≤ reg.last_code) }
    ensures { (result ≡ channel_part sample extra code) × (result ≤ 170000) }
{
    let n = samples(code);
    if n == 0 {
        return 0;
    }
    (n as u32) * sample + extra
}

// The sum by the given figures, none of them above 10000, at codes of 0 to 7.
// The codes come one by one, as `estimate_wait` and `paper::are_codes` take them: a type for a code would be built three times for one sum.
pub(crate) fn microseconds(figures: Figures, temperature: u8, pressure: u8, humidity: u8) -> u32
    requires { (figures.base ≤ 10000) × (figures.sample ≤ 10000) × (figures.extra ≤ 10000) × (temperature ≤ reg.last_code) × (pressure ≤ reg.last_code) × (humidity ≤ reg.last_code) }
    ensures { result ≡ microsecondsOf figures temperature pressure humidity }
{
    let of_temperature = channel_part(figures.sample, 0, temperature);
    let of_pressure = channel_part(figures.sample, figures.extra, pressure);
    let of_humidity = channel_part(figures.sample, figures.extra, humidity);
    figures.base + of_temperature + of_pressure + of_humidity
}
