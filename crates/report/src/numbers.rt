//! The numbers of a report on bytes that are read as eight flags each.
ghost use Rattle.std.specs.Prelude.{◌≡◌, length};
ghost use Rattle.masks.specs.Checks.{first_failed};
ghost use Rattle.masks.specs.Mask.{mask_checks, mask_flags};
ghost use Rattle.masks.specs.SliceIterator.{runs_from};
ghost use Rattle.report.specs.Numbers.{report_of};

use masks::bitmap::Bitmap;
use masks::compare::num_edges;
use masks::cursor::Step;
use masks::slice_iterator::SlicesIterator;

/// The numbers of a report.
#[derive(Clone, Copy)]
pub struct Numbers {
    pub flags: usize,
    pub zeros: usize,
    pub edges: usize,
    pub runs: usize,
}

/// Returns the numbers of flags, zeros, edges and runs of ones; none for more than 65,536 bytes: the report's own limit, no check of masks.
pub fn report(bytes: &[u8]) -> Option<Numbers>
    ensures { result ≡ report_of bytes.now }
{
    if bytes.len() > 65536 {
        return None;
    }
    let flags = 8 * bytes.len();
    let mask = Bitmap {
        start: 0,
        length: flags,
        unset: None,
        serial: 0,
    };
    let zeros = mask.unset_bits(bytes).unwrap().zeros;
    let edges = num_edges(mask, bytes).unwrap();
    let runs = runs_of(mask, bytes);
    Some(Numbers {
        flags,
        zeros,
        edges,
        runs,
    })
}

// Counts the runs by calling the cursor until it has none left. The cursor is no iterator: it is lent the bytes at each call.
fn runs_of(mask: Bitmap, bytes: &[u8]) -> usize
    requires { first_failed (mask_checks mask bytes.now) ≡ 0 }
    ensures { result ≡ length (runs_from 0 (mask_flags mask bytes.now)) }
{
    let mut cursor = SlicesIterator::new(mask, bytes).unwrap();
    let mut runs = 0;
    while let Step {
        item: Some(_),
        cursor: next,
    } = cursor.next(bytes).unwrap()
    {
        runs += 1;
        cursor = next;
    }
    runs
}
