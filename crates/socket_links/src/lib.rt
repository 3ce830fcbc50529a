//! Links over the sockets of the system, and its clock: what a server meets when it runs. They tell nothing of what they
//! read, write and tell, and are tested besides.
#![tactic(auto)]

mod bind;
mod clock;
mod closing;
mod notices;
mod slots;
mod sockets;

pub use clock::SystemClock;
pub use sockets::{ListenFault, SocketLinks};
