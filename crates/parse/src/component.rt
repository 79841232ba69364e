// A component's fields, in four groups that follow 01's order.

ghost use Rattle.std.specs.Prelude.{◌≡◌};
ghost use Rattle.tree.specs.Doors.{Spread};
ghost use Rattle.parse.specs.Component as comps;
ghost use Rattle.tree.specs.Both.{on};

use crate::field::{first_fault, flag, kind, number, text, text_needed};
use schema::{Boot, Component, Features, Head, Load, Role, Text, Word};
use tree::{Fields, Rooms};

#[derive(Clone, Copy)]
pub struct Sources {
    pub fault: u32,
    pub package: Text,
    pub bin: Text,
    pub file: Text,
}

#[derive(Clone, Copy)]
pub struct HeadRead {
    pub fault: u32,
    pub head: Head,
}

#[derive(Clone, Copy)]
pub struct Lists {
    pub fault: u32,
    pub features: Features,
    pub pbp_features: Features,
}

#[derive(Clone, Copy)]
pub struct RoleRead {
    pub fault: u32,
    pub role: Role,
}

#[derive(Clone, Copy)]
pub struct BootRead {
    pub fault: u32,
    pub boot: Boot,
}

#[derive(Clone, Copy)]
pub struct LoadRead {
    pub fault: u32,
    pub load: Load,
}

#[derive(Clone, Copy)]
pub struct ComponentRead {
    pub fault: u32,
    pub component: Component,
}

// The name of a file, where there is one.
pub fn name_in(store: &[u8], file: Text) -> Text
    ensures { result ≡ comps.name_in store.now file }
{
    match file {
        Text::Stored { from, len } => {
            let s = schema::stored(store, from, len);
            match crate::file::file_name(s) {
                Some(p) => Text::Stored {
                    from: from + p.from,
                    len: p.len,
                },
                None => Text::Absent,
            }
        }
        _ => Text::Absent,
    }
}

// `bin`, else the file's name, else `package`, else `component.bin`.
fn filename_for(store: &[u8], s: Sources) -> Text
    ensures { result ≡ comps.filename_for store.now s }
{
    let file = s.file;
    let package = s.package;
    let bin = s.bin;
    let named = name_in(store, file);
    let last = package.or(Text::Fixed(Word::Component));
    let rest = named.or(last);
    bin.or(rest)
}

pub fn read_sources(tree: &[u8], store: &[u8], f: Fields) -> Sources
    requires { Spread tree.now f }
    ensures { result ≡ comps.sources tree.now store.now f }
{
    let p = text(tree, store, f, b"package");
    let b = text(tree, store, f, b"bin");
    let s = text(tree, store, f, b"file");
    let package = p.text;
    let bin = b.text;
    let file = s.text;
    Sources {
        fault: first_fault(p.fault, first_fault(b.fault, s.fault)),
        package,
        bin,
        file,
    }
}

// `kind`, `name`, `package`, `bin`, `file`, `filename`.
pub fn read_head(tree: &[u8], store: &[u8], f: Fields) -> HeadRead
    requires { Spread tree.now f }
    ensures { result ≡ comps.head_read tree.now store.now f }
{
    let k = kind(tree, store, f);
    let n = text_needed(tree, store, f, b"name");
    let s = read_sources(tree, store, f);
    let t = text(tree, store, f, b"filename");
    let late = first_fault(s.fault, t.fault);
    let kind = k.kind;
    let name = n.text;
    let package = s.package;
    let bin = s.bin;
    let file = s.file;
    let filename = t.text;
    HeadRead {
        fault: first_fault(k.fault, first_fault(n.fault, late)),
        head: Head {
            kind,
            name,
            package,
            bin,
            file,
            filename: filename.or(filename_for(store, s)),
        },
    }
}

// `features`, `pbp_features`: an empty one takes `features`.
pub fn read_lists(rooms: Rooms<'_>, f: Fields, limit: usize) -> Lists
    requires { Spread rooms.tree.now f }
    ensures { result ≡ on comps.lists rooms.entry f limit }
{
    let all = features::read(rooms, rooms.field(f, b"features"), limit);
    let own = features::read(rooms, rooms.field(f, b"pbp_features"), limit);
    let fault = first_fault(all.fault, own.fault);
    let features = all.features;
    let pbp_features = own.features;
    if features::is_empty(rooms, pbp_features) {
        return Lists {
            fault,
            features,
            pbp_features: features,
        };
    }
    Lists {
        fault,
        features,
        pbp_features,
    }
}

// The lists, then `partition`, `attr`, `target_attr`, `target_filename`.
pub fn read_role(rooms: Rooms<'_>, f: Fields, limit: usize) -> RoleRead
    requires { Spread rooms.tree.now f }
    ensures { result ≡ on comps.role_read rooms.entry f limit }
{
    let l = read_lists(rooms, f, limit);
    let p = text(rooms.tree, rooms.store, f, b"partition");
    let a = text(rooms.tree, rooms.store, f, b"attr");
    let t = text(rooms.tree, rooms.store, f, b"target_attr");
    let n = text(rooms.tree, rooms.store, f, b"target_filename");
    let late = first_fault(a.fault, first_fault(t.fault, n.fault));
    let features = l.features;
    let pbp_features = l.pbp_features;
    let partition = p.text;
    let attr = a.text;
    let target_attr = t.text;
    let target_filename = n.text;
    RoleRead {
        fault: first_fault(l.fault, first_fault(p.fault, late)),
        role: Role {
            features,
            pbp_features,
            partition: partition.or(Text::Stored { from: 0, len: 0 }),
            attr: attr.or(Text::Fixed(Word::Required)),
            target_attr,
            target_filename,
        },
    }
}

// `updater`, `ram`, `pbp`, `pbp_package`, `private`.
pub fn read_boot(tree: &[u8], store: &[u8], f: Fields) -> BootRead
    requires { Spread tree.now f }
    ensures { result ≡ comps.boot_read tree.now store.now f }
{
    let u = flag(tree, store, f, b"updater");
    let n = number(tree, store, f, b"ram");
    let t = text(tree, store, f, b"pbp");
    let o = text(tree, store, f, b"pbp_package");
    let p = text(tree, store, f, b"private");
    let late = first_fault(t.fault, first_fault(o.fault, p.fault));
    let ram = n.number;
    let pbp = t.text;
    let pbp_package = o.text;
    let private = p.text;
    BootRead {
        fault: first_fault(u.fault, first_fault(n.fault, late)),
        boot: Boot {
            updater: u.flag,
            ram,
            pbp,
            pbp_package,
            private,
        },
    }
}

// `load_address`, `entry_point`, `entry_offset`, `header_version`, `with_ext`, `ext_reserve`.
pub fn read_load(tree: &[u8], store: &[u8], f: Fields) -> LoadRead
    requires { Spread tree.now f }
    ensures { result ≡ comps.load_read tree.now store.now f }
{
    let a = number(tree, store, f, b"load_address");
    let p = number(tree, store, f, b"entry_point");
    let o = number(tree, store, f, b"entry_offset");
    let v = number(tree, store, f, b"header_version");
    let e = flag(tree, store, f, b"with_ext");
    let r = number(tree, store, f, b"ext_reserve");
    let late = first_fault(v.fault, first_fault(e.fault, r.fault));
    let load_address = a.number;
    let entry_point = p.number;
    let entry_offset = o.number;
    let header_version = v.number;
    let ext_reserve = r.number;
    LoadRead {
        fault: first_fault(a.fault, first_fault(p.fault, first_fault(o.fault, late))),
        load: Load {
            load_address,
            entry_point,
            entry_offset,
            header_version,
            with_ext: e.flag,
            ext_reserve: ext_reserve.unwrap_or(0),
        },
    }
}

pub fn read_component(rooms: Rooms<'_>, f: Fields, limit: usize) -> ComponentRead
    requires { Spread rooms.tree.now f }
    ensures { result ≡ on comps.component_read rooms.entry f limit }
{
    let h = read_head(rooms.tree, rooms.store, f);
    let r = read_role(rooms, f, limit);
    let b = read_boot(rooms.tree, rooms.store, f);
    let l = read_load(rooms.tree, rooms.store, f);
    let late = first_fault(b.fault, l.fault);
    let head = h.head;
    let role = r.role;
    let boot = b.boot;
    let load = l.load;
    ComponentRead {
        fault: first_fault(h.fault, first_fault(r.fault, late)),
        component: Component {
            head,
            role,
            boot,
            load,
        },
    }
}
