// A channel as a cell, and the cells on a map point.
ghost use Rattle.std.specs.Prelude.{◌≡◌};
ghost use Rattle.rooms.specs.Points as points;

use crate::{Cell, Cells, MapPoint};
use formula::{ChannelAnswer, TemperatureAnswer};

// A temperature as a cell: the hundredths as they are.
pub fn temperature(answer: TemperatureAnswer) -> Cell
    ensures { result ≡ points.temperature_cell answer }
{
    match answer {
        Ok(t) => Cell::Temperature(t.value as f64),
        Err(missing) => Cell::Missing(missing),
    }
}

// A pressure as a cell, in Pa: the whole number divided by 256.
pub fn pressure(answer: ChannelAnswer) -> Cell
    ensures { result ≡ points.pressure_cell answer }
{
    match answer {
        Ok(value) => Cell::Pressure((value as f64) / 256.0),
        Err(missing) => Cell::Missing(missing),
    }
}

// A humidity as a cell, in %RH: the whole number divided by 1024.
pub fn humidity(answer: ChannelAnswer) -> Cell
    ensures { result ≡ points.humidity_cell answer }
{
    match answer {
        Ok(value) => Cell::Humidity((value as f64) / 1024.0),
        Err(missing) => Cell::Missing(missing),
    }
}

// Three cells on a map point.
pub fn lay(cells: Cells) -> MapPoint
    ensures { result ≡ points.point_of cells }
{
    MapPoint {
        temperature: double(cells.temperature),
        pressure: double(cells.pressure),
        humidity: double(cells.humidity),
        temperature_known: is_known(cells.temperature),
        pressure_known: is_known(cells.pressure),
        humidity_known: is_known(cells.humidity),
    }
}

// A cell's double: its value, and positive zero where it is missing.
fn double(cell: Cell) -> f64
    ensures { result ≡ points.double cell }
{
    match cell {
        Cell::Temperature(value) | Cell::Pressure(value) | Cell::Humidity(value) => value,
        Cell::Missing(_) => 0.0,
    }
}

// Whether a cell has a value.
fn is_known(cell: Cell) -> bool
    ensures { result ≡ points.is_known cell }
{
    !matches!(cell, Cell::Missing(_))
}
