// What is to be done next on a connection.
ghost use Rattle.std.specs.Prelude.{◌≡◌, ◌&&◌, not, None, is_some};
ghost use Rattle.ngx_outside.specs.Wants.{wants_at, first_doable};
ghost use Rattle.http_connection.specs.Conn.{room_at, view_of};
ghost use Rattle.http_connection.specs.Wants.{first_of, room_if};

use crate::Conn;
use ngx_outside::Want;

// How many bytes are read, where the link is due to be read.
fn room_due(due: bool, conn: &Conn) -> Option<usize>
    ensures { result ≡ room_if due (room_at (is_some conn.now.cause) conn.now.closing
        conn.now.ended conn.now.buffered) }
{
    if due { conn.room() } else { None }
}

// What is to be done where nothing is read, no node can run and none has a job.
fn last_want(conn: u32, full: bool, is_empty: bool, shut: bool) -> Option<Want>
    ensures { result ≡ first_of conn None None None (not full && not is_empty) shut }
{
    if !full && !is_empty {
        Some(Want::Write { conn })
    } else if shut {
        Some(Want::Close { conn })
    } else {
        None
    }
}

/// The first want of a connection that can be served, under its number, where its link is due to be read or not, and full or
/// not. What comes after that is not looked at.
#[inline(always)]
pub fn next_want(conn: &Conn, number: u32, due: bool, full: bool) -> Option<Want>
    ensures { (site : _) → result ≡ first_doable due full
        (wants_at number (view_of site conn.now)) }
{
    if let Some(room) = room_due(due, conn) {
        return Some(Want::Read { conn: number, room });
    }
    if let Some(node) = conn.first_ready() {
        return Some(Want::Run { conn: number, node });
    }
    if let Some(node) = conn.first_job() {
        return Some(Want::Job { conn: number, node });
    }
    last_want(number, full, conn.pending().is_empty(), conn.is_shut())
}
