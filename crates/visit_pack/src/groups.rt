// Lines with a group's name: the groups that such a line closes, and the one that it opens.
use crate::faults::Fault;
use crate::{Holds, Pack};
use visit::Step;

// The groups of a visit, the outermost first.
#[derive(Clone, Copy)]
pub(crate) enum Group {
    House,
    Floor,
    Room,
    Reading,
}

impl Group {
    // How many groups are open around one of this name.
    fn depth(self) -> usize {
        match self {
            Group::House => 0,
            Group::Floor => 1,
            Group::Room => 2,
            Group::Reading => 3,
        }
    }
}

// Whether the innermost group may be closed: not where its slot lacks fields, and not where it holds nothing.
fn check_whole(holds: Holds) -> Result<(), Fault> {
    match holds {
        Holds::Slot(_, Some(_)) => Err(Fault::Order),
        Holds::Slot(_, None) | Holds::Groups => Ok(()),
        Holds::Nothing => Err(Fault::EmptyGroup),
    }
}

// Whether a group may be opened at a depth: at all but its number.
fn check(pack: &Pack, depth: usize, group: Group) -> Result<(), Fault> {
    let open = usize::from(pack.place.level);
    if depth != group.depth() || depth > open {
        return Err(Fault::Depth);
    }
    if depth == open {
        return match pack.holds {
            Holds::Slot(_, _) => Err(Fault::Depth),
            Holds::Nothing | Holds::Groups => Ok(()),
        };
    }
    if depth == 0 {
        return Err(Fault::Depth);
    }
    check_whole(pack.holds)
}

// Closes groups until so many are open.
fn close_to(pack: &mut Pack, depth: usize) {
    for _ in depth..usize::from(pack.place.level) {
        pack.lay(Step::Close);
        pack.holds = Holds::Groups;
    }
}

// Takes the line of a group, with what stands after its name: its number, or nothing.
pub(crate) fn take(
    pack: &mut Pack,
    depth: usize,
    group: Group,
    number: Option<&[u8]>,
) -> Result<(), Fault> {
    check(pack, depth, group)?;
    close_to(pack, depth);
    pack.lay(Step::Open);
    pack.holds = Holds::Nothing;
    let Some(text) = number else {
        return Ok(());
    };
    if visit_typed::number(text) != Some(u64::from(visit_place::number(pack.place))) {
        return Err(Fault::Number);
    }
    Ok(())
}

// Takes the text's end: every group is closed, unless the text ends too soon.
pub(crate) fn end(pack: &mut Pack) -> Result<(), Fault> {
    if pack.place.level == 0 || check_whole(pack.holds).is_err() {
        return Err(Fault::TooSoon);
    }
    close_to(pack, 0);
    Ok(())
}
