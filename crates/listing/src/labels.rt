// The labels of regions and of blocks, over which the totals are taken.
ghost use Rattle.std.specs.Prelude.{◌≤◌, ◌<◌, ◌≡◌, length};
ghost use Rattle.partition.specs.Passed.{Model, read_table, accepted, max_entries, listed};
ghost use Rattle.partition.specs.Instances.{graph};
ghost use Rattle.partition.specs.View.{location_labels};
ghost use Rattle.listing.specs.Labels.{labels_to, block_labels};

// Stores the label of each of the first regions, as many as the slice is long, from the labels of all locations that a byte can name.
fn store_labels(locations: &[u8], entries: &[u8], labels: &mut [u8])
    requires { length labels.old ≤ max_entries }
    ensures { (m : Model) → locations.now ≡ location_labels m 256
        → labels.new ≡ labels_to (graph m (listed entries.now (length labels.old)))
        (length labels.old) }
{
    for (x, label) in labels.iter_mut().enumerate() {
        let location = partition::entry_at(entries, x).location;
        *label = slices::at(locations, usize::from(location), 0);
    }
}

// Stores the label of each of the first regions of a table that was read, as many as the slice is long.
pub(crate) fn label_regions(bytes: &[u8], entries: &[u8], labels: &mut [u8])
    requires { length labels.old ≤ max_entries }
    ensures { (m : Model) → read_table bytes.now ≡ accepted m
        → labels.new ≡ labels_to (graph m (listed entries.now (length labels.old)))
        (length labels.old) }
{
    let mut locations = [0; 256];
    partition::label_locations(bytes, &mut locations);
    store_labels(&locations, entries, labels);
}

// Stores the label of each of the first blocks, as many as the slice is long: the label of its lowest region, which is met last, and that
// of region 0 if it has none.
pub(crate) fn label_blocks(list: &[u64], regions: &[u8], labels: &mut [u8])
    requires { (length regions.now ≡ length list.now) × (0 < length list.now) }
    ensures { labels.new ≡ block_labels regions.now list.now (length labels.old) }
{
    labels.fill(regions[0]);
    for x in (0..list.len()).rev() {
        slices::put(labels, list[x] as usize, regions[x]);
    }
}
