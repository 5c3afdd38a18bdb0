//! What doors do about refused accepts, by scripts of the system's numbers.
use fts_devices::{Listens, next_line};
use std::test::Fail;

/// A listener that answers by these numbers in turn, of which 0 is a line, and then by a line.
#[derive(Drop)]
struct Refusing {
    answers: &'static [u32],
    asked: usize,
    rests: usize,
}

impl Listens for Refusing {
    ghost use Rattle.std.specs.Prelude.{None};

    type Line = usize;

    ghost answers = { λ _. None };

    fn take(&mut self) -> Result<usize, u32> {
        let answer = match self.answers.get(self.asked) {
            Some(answer) => *answer,
            None => 0,
        };
        self.asked = self.asked.saturating_add(1);
        if answer == 0 {
            Ok(self.asked)
        } else {
            Err(answer)
        }
    }

    fn rest(&mut self) {
        self.rests = self.rests.saturating_add(1);
    }
}

#[test]
fn a_refused_accept_ends_no_lane_that_has_a_listener(rt: HostRuntime) -> Result<(), Fail> {
    // The numbers of Linux: 4 EINTR, 9 EBADF, 11 EAGAIN, 12 ENOMEM, 22 EINVAL, 23 ENFILE, 24 EMFILE, 71 EPROTO, 88 ENOTSOCK, 103 ECONNABORTED, 105 ENOBUFS.
    let rows: [(&str, &'static [u32], Option<usize>, usize); 9] = [
        ("no refusal", &[], Some(1), 0),
        ("aborted, and a signal", &[103, 4], Some(3), 0),
        ("no descriptors", &[24, 23], Some(3), 2),
        ("no memory", &[12, 105], Some(3), 2),
        (
            "others, and one that another lane took",
            &[71, 11],
            Some(3),
            1,
        ),
        ("all of them", &[103, 24, 4, 23, 103], Some(6), 2),
        ("no handle", &[9, 0], None, 0),
        ("no socket, behind a rest", &[24, 88, 0], None, 1),
        ("no listener", &[103, 22, 0], None, 0),
    ];
    for (case, answers, line, rests) in rows {
        let mut listener = Refusing {
            answers,
            asked: 0,
            rests: 0,
        };
        let taken = next_line(&mut listener);
        assert!(rt; taken == line, "{case}: the line");
        assert!(rt; listener.rests == rests, "{case}: the rests");
    }
    Ok(())
}
