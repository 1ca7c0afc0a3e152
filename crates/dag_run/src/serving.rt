//! Serving the one mirror.

ghost use Rattle.std.specs.Prelude.{◌≡◌, ◌≢◌, ◌⊎◌, length, map};
ghost use Rattle.outside.specs.Counts.{Rose};
ghost use Rattle.outside.specs.Told.{WhereTold};
ghost use Rattle.remote_serve.specs.Steps.{ports, served_streams};
ghost use Rattle.dag_run.specs.Serving.{IsServeStatus, ServeMeans, WantsOne, served_status};

use line_io::{Sink, Source};
use mirror_set::Mirrors;
use remote_serve::{Desk, Served};
use remote_trait::Remote;
use std::alloc::Global;

/// The status where the mirrors aren't one.
const NOT_ONE: u8 = 11;

/// The status where memory is wanting before the first frame.
const NO_MEMORY: u8 = 7;

/// The status of an end.
fn status(end: Served) -> u8
    ensures { result ≡ served_status end }
{
    match end {
        Served::End => 0,
        Served::SourceFault => 5,
        Served::SinkFault => 6,
        Served::Memory => NO_MEMORY,
        Served::Limit => 8,
        Served::BadFrame => 12,
    }
}

/// Answers the framed requests of the input, of which `limit` bytes count, over the one mirror, and gives the status: 11, with
/// nothing read, where the mirrors aren't one. Each answer is put before the next frame is read.
pub fn serve_mirror<I: Source, O: Sink, R: Remote>(
    alloc: Global,
    limit: u64,
    mirrors: &mut Mirrors<R>,
    input: &mut I,
    output: &mut O,
) -> u8
    ensures known { IsServeStatus result }
    ensures means { let first = map R.shown mirrors.old.list.items in let left = map R.shown mirrors.new.list.items in
        length mirrors.old.list.items ≡ 1 → WhereTold (ports (I.left input.old) (O.taken output.old)) (ports (I.left input.new) (O.taken output.new))
        (λ before after. ServeMeans limit result (served_streams before after) first left) }
    ensures one { WantsOne (length mirrors.old.list.items) result }
    ensures quiet { (result ≡ 7) ⊎ (result ≡ 11) → (input.new ≡ input.old) × (output.new ≡ output.old) × (mirrors.new ≡ mirrors.old) }
    ensures source { result ≡ 5 → Rose (I.faults input.old) (I.faults input.new) }
    ensures sink { result ≡ 6 → Rose (O.faults output.old) (O.faults output.new) }
{
    if mirrors.len() != 1 {
        return NOT_ONE;
    }
    match Desk::new(alloc, limit) {
        Ok(desk) => {
            let end = desk.serve_only(alloc, &mut mirrors.list, input, output);
            status(end)
        }
        Err(_) => NO_MEMORY,
    }
}
