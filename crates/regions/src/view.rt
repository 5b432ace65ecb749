// What the layer above asks of a table beside its graph.
ghost use Rattle.std.specs.Prelude.{◌≡◌};
ghost use Rattle.table.specs.Reading.{read_table};
ghost use Rattle.regions.specs.View.{bounds_read, edges_read};

use crate::bounds::bounds_of;
use clocks::Bounds;

// Returns the bounds of the clocks of the model of a table.
pub fn bounds_read(bytes: &[u8]) -> Bounds
    ensures { result ≡ bounds_read (read_table bytes.now) }
{
    match table::read(bytes) {
        Ok(shape) => {
            let mut places = [0; 128];
            table::list_places(bytes, shape, &mut places);
            bounds_of(bytes, shape, &places)
        }
        Err(_) => Bounds {
            count: 0,
            bound: [0; 4],
        },
    }
}

// Returns how many edges the model of a table has.
pub fn edge_count(bytes: &[u8]) -> usize
    ensures { result ≡ edges_read (read_table bytes.now) }
{
    match table::read(bytes) {
        Ok(shape) => shape.edges,
        Err(_) => 0,
    }
}
