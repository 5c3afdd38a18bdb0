//! What the last look at a journal left: tables that are shown, or why there are none.
//! Keeps: a look goes on behind the entries that were folded (`look`, clause `looks`). Where the last of them no longer stands there, the journal is
//! opened anew, over the same disk.
ghost use Rattle.std.specs.Prelude.{◌≡◌};
ghost use Rattle.fts_panel.specs.Views.{seen_by, Opens, Looks, LooksOn};

use fts_disk::Disk;
use fts_watch::{Monitor, MonitorFault};
use std::alloc::Global;

/// What the last look left.
#[derive(Drop)]
pub enum View<D: Disk> {
    /// What was folded since a moment is shown: all entries, or those that stand before the offset of damage.
    Shown {
        monitor: Monitor<D>,
        began: u64,
        damage: Option<u64>,
    },
    /// The look wasn't done. What was folded stays.
    Unread {
        monitor: Monitor<D>,
        began: u64,
        fault: MonitorFault,
    },
    /// The journal couldn't be opened.
    Shut {
        disk: D,
        fault: MonitorFault,
    },
}

impl<D: Disk> View<D> {
    ghost use Rattle.std.specs.Prelude.{◌≡◌};
    ghost use Rattle.fts_panel.specs.Views.{fault_in};

    /// Why the last look wasn't done; none where it was, also where it came to damage.
    pub fn fault(&self) -> Option<MonitorFault>
        ensures { result ≡ fault_in self.now }
    {
        match self {
            View::Shown {
                monitor: _,
                began: _,
                damage: _,
            } => None,
            View::Unread {
                monitor: _,
                began: _,
                fault,
            } => Some(*fault),
            View::Shut { disk: _, fault } => Some(*fault),
        }
    }
}

/// Opens the journal of a disk at a moment, in seconds since 1970, and looks at it.
pub fn open_view<D: Disk>(alloc: Global, disk: D, now: u64) -> View<D>
    ensures { Opens D.state D.faults now disk result }
{
    match Monitor::open(alloc, disk) {
        Ok(mut monitor) => {
            let found = monitor.look();
            view_by(monitor, now, found)
        }
        Err((fault, disk)) => View::Shut { disk, fault },
    }
}

/// Looks once more: behind what was folded, or where that no longer stands there, or the journal couldn't be opened, from the beginning on.
pub fn look<D: Disk>(alloc: Global, view: View<D>, now: u64) -> View<D>
    ensures { Looks D.state D.faults now view result }
{
    match view {
        View::Shut { disk, fault: _ } => open_view(alloc, disk, now),
        View::Shown {
            monitor,
            began,
            damage: _,
        } => look_on(alloc, monitor, began, now),
        View::Unread {
            monitor,
            began,
            fault: _,
        } => look_on(alloc, monitor, began, now),
    }
}

/// Looks behind what was folded, or where that no longer stands there from the beginning on.
fn look_on<D: Disk>(alloc: Global, mut monitor: Monitor<D>, began: u64, now: u64) -> View<D>
    ensures { LooksOn D.state D.faults now began monitor result }
{
    match monitor.look() {
        Err(MonitorFault::Changed) => open_view(alloc, monitor.close(), now),
        Ok(()) => view_by(monitor, began, Ok(())),
        Err(MonitorFault::DiskFailed) => view_by(monitor, began, Err(MonitorFault::DiskFailed)),
        Err(MonitorFault::Damaged { offset }) => {
            view_by(monitor, began, Err(MonitorFault::Damaged { offset }))
        }
        Err(MonitorFault::Memory) => view_by(monitor, began, Err(MonitorFault::Memory)),
    }
}

/// What a look that found this left, over a journal that was opened at a moment.
fn view_by<D: Disk>(monitor: Monitor<D>, began: u64, found: Result<(), MonitorFault>) -> View<D>
    ensures { result ≡ seen_by monitor began found }
{
    match found {
        Ok(()) => View::Shown {
            monitor,
            began,
            damage: None,
        },
        Err(MonitorFault::Damaged { offset }) => View::Shown {
            monitor,
            began,
            damage: Some(offset),
        },
        Err(fault) => View::Unread {
            monitor,
            began,
            fault,
        },
    }
}
