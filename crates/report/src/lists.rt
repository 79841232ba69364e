// A line for each entry of a preset's lists, and for each build.

ghost use Rattle.page.specs.Page.{Adds};
ghost use Rattle.report.specs.Shown as shown;
ghost use Rattle.report.specs.Shown.{Stands};
ghost use Rattle.tree.specs.Both.{on};

use page::Page;
use parse::view::Lists;
use plan::choice::Choice;
use tree::Rooms;

// One more than there may be.
const APPLICATIONS_ASKED: usize = meaning::APPLICATIONS + 1;

// The partitions, in their order.
pub fn parts(page: &mut Page, rooms: Rooms<'_>, lists: Lists)
    requires { on Stands rooms lists }
    ensures { Adds (on shown.parts rooms.entry) page.old page.new }
{
    let l = lists.partitions;
    let mut w = tree::items_of(l.place, l.end);
    while let Some(step) = tree::next_item(rooms.tree, w) {
        let r = parse::entry::partition_at(rooms, step.value);
        crate::line::part(page, rooms.store, r.partition);
        w = step.rest;
    }
}

// The components, in their order.
pub fn comps(page: &mut Page, rooms: Rooms<'_>, lists: Lists, name: &[u8])
    requires { on Stands rooms lists }
    ensures { Adds (on shown.comps rooms.entry name.now) page.old page.new }
{
    let l = lists.components;
    let mut w = tree::items_of(l.place, l.end);
    while let Some(step) = tree::next_item(rooms.tree, w) {
        let x = crate::brief::component(rooms, step.value);
        crate::line::comp(page, rooms.store, name, x);
        w = step.rest;
    }
}

// The applications, in byte order of key.
pub fn apps(page: &mut Page, rooms: Rooms<'_>, lists: Lists, name: &[u8])
    requires { on Stands rooms lists }
    ensures { Adds (on shown.apps rooms.entry name.now) page.old page.new }
{
    let l = lists.applications;
    let mut w = tree::keys_of(rooms.tree, l.place, l.end);
    for _i in 0..APPLICATIONS_ASKED {
        let Some(step) = tree::next_key(rooms.tree, rooms.store, w) else {
            return;
        };
        let x = crate::brief::application(rooms, step.value);
        crate::line::app(page, rooms.store, name, x);
        w = step.rest;
    }
}

// What is built for the boot chain, in first use.
pub fn builds(page: &mut Page, rooms: Rooms<'_>, name: &[u8])
    ensures { Adds (on shown.builds rooms.entry name.now) page.old page.new }
{
    let b = plan::builds::builds(rooms, Choice::BootChain);
    for i in 0..b.count {
        let x = plan::builds::build_at(b.items[i]);
        let n = features::count_features(rooms, x.features);
        crate::line::build(page, rooms.store, name, x.package, n);
    }
}
