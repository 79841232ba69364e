// Views of the records in the rooms that reading leaves. Total on any rooms: where there is no such record, `found`
// is 0 and all else too.

ghost use Rattle.std.specs.Prelude.{◌≡◌};
ghost use Rattle.parse.specs.Views as views;
ghost use Rattle.host.specs.Records as records;
ghost use Rattle.host.specs.Records.{Worded};

use host::{
    ApplicationView, BoardView, BootView, Counts, FeatureView, HeadView, ImageView, LoadView,
    PartitionView, RoleView,
};

// The board, whose name may be the lent one.
#[unsafe(no_mangle)]
pub extern "C" fn preset_board(tree: &[u8], store: &[u8], made: usize, name: &[u8]) -> BoardView
    ensures { result ≡ records.board_shown tree.now store.now made name.now }
{
    host::preset_board(tree, store, made, name)
}

#[unsafe(no_mangle)]
pub extern "C" fn preset_image(tree: &[u8], store: &[u8], made: usize) -> ImageView
    ensures { result ≡ records.image_shown tree.now store.now made }
{
    host::preset_image(tree, store, made)
}

// Partition number i.
#[unsafe(no_mangle)]
pub extern "C" fn preset_partition(
    tree: &[u8],
    store: &[u8],
    made: usize,
    i: usize,
) -> PartitionView
    ensures { result ≡ records.partition_shown tree.now store.now made i }
{
    host::preset_partition(tree, store, made, i)
}

// What component number i is and what it is made from.
#[unsafe(no_mangle)]
pub extern "C" fn preset_component_head(
    tree: &[u8],
    store: &[u8],
    made: usize,
    i: usize,
) -> HeadView
    ensures { result ≡ records.head_of (records.component tree.now store.now made i) }
{
    host::preset_component_head(tree, store, made, i)
}

// What it is built with and where it goes.
#[unsafe(no_mangle)]
pub extern "C" fn preset_component_role(
    tree: &[u8],
    store: &[u8],
    made: usize,
    i: usize,
) -> RoleView
    ensures { result ≡ records.role_of (records.component tree.now store.now made i) }
{
    host::preset_component_role(tree, store, made, i)
}

// What it does at boot.
#[unsafe(no_mangle)]
pub extern "C" fn preset_component_boot(
    tree: &[u8],
    store: &[u8],
    made: usize,
    i: usize,
) -> BootView
    ensures { result ≡ records.boot_of (records.component tree.now store.now made i) }
{
    host::preset_component_boot(tree, store, made, i)
}

// How it is loaded.
#[unsafe(no_mangle)]
pub extern "C" fn preset_component_load(
    tree: &[u8],
    store: &[u8],
    made: usize,
    i: usize,
) -> LoadView
    ensures { result ≡ records.load_of (records.component tree.now store.now made i) }
{
    host::preset_component_load(tree, store, made, i)
}

// Application number i, in byte order of key.
#[unsafe(no_mangle)]
pub extern "C" fn preset_application(
    tree: &[u8],
    store: &[u8],
    made: usize,
    i: usize,
) -> ApplicationView
    ensures { result ≡ records.application_shown tree.now store.now made i }
{
    host::preset_application(tree, store, made, i)
}

// How many entries the three lists have.
#[unsafe(no_mangle)]
pub extern "C" fn preset_counts(tree: &[u8], store: &[u8], made: usize) -> Counts
    ensures { result ≡ records.counts_of (views.counts_at tree.now store.now made) }
{
    host::preset_counts(tree, store, made)
}

// The item of a feature list with the least bytes of all (begun 0), or with the least above size bytes of the store
// from last on.
#[unsafe(no_mangle)]
pub extern "C" fn preset_feature(
    tree: &[u8],
    store: &[u8],
    made: usize,
    kind: u32,
    from: usize,
    len: usize,
    begun: u32,
    last: usize,
    size: usize,
) -> FeatureView
    ensures { result ≡ records.feature_shown tree.now store.now made kind from len begun last
        size }
{
    host::preset_feature(tree, store, made, kind, from, len, begun, last, size)
}

// Writes a word's bytes at the head of a room and zeros after them, and says how many; 0 where there is no such word
// or the room is shorter.
#[unsafe(no_mangle)]
pub extern "C" fn preset_word(word: u32, out: &mut [u8]) -> usize
    ensures { Worded word out.old out.new result }
{
    host::preset_word(word, out)
}
