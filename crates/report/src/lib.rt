// The listing of an accepted preset's boot chain: its lines, one after the other, on a lent page.

#![tactic(auto)]

pub mod brief;
pub mod line;
pub mod lists;

ghost use Rattle.page.specs.Page.{Adds};
ghost use Rattle.report.specs.Shown as shown;
ghost use Rattle.report.specs.Shown.{Stands};
ghost use Rattle.tree.specs.Both.{on};

use page::Page;
use parse::view::Lists;
use plan::choice::Choice;
use tree::Rooms;

// `ok`, and a line for each entry of its lists.
fn entry_lines(page: &mut Page, rooms: Rooms<'_>, lists: Lists, name: &[u8])
    requires { on Stands rooms lists }
    ensures { Adds (on shown.entries rooms.entry name.now) page.old page.new }
{
    line::ok(page, rooms, lists);
    lists::parts(page, rooms, lists);
    lists::comps(page, rooms, lists, name);
    lists::apps(page, rooms, lists, name);
}

// `ok`, and a line for each entry of the lists, which are looked up once for both.
fn entries(page: &mut Page, rooms: Rooms<'_>, name: &[u8])
    ensures { Adds (on shown.entries rooms.entry name.now) page.old page.new }
{
    entry_lines(page, rooms, parse::view::lists_of(rooms), name);
}

// What is built, and the stem.
fn outcome(page: &mut Page, rooms: Rooms<'_>, name: &[u8])
    ensures { Adds (on shown.outcome rooms.entry name.now) page.old page.new }
{
    lists::builds(page, rooms, name);
    let t = plan::stem::stem(rooms, name, Choice::BootChain);
    line::stem(page, rooms.store, name, t);
}

// All lines of the listing after what stands on the page, as many of their bytes as it takes.
pub fn lines(page: &mut Page, rooms: Rooms<'_>, name: &[u8])
    ensures { Adds (on shown.lines rooms.entry name.now) page.old page.new }
{
    entries(page, rooms, name);
    outcome(page, rooms, name);
}
