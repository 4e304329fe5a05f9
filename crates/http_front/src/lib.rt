//! Requests as bytes and replies as bytes: heads and bodies, paths, and what is sent.
#![tactic(auto)]

mod head;
mod next;
mod parts;
mod path;
mod refusal;
mod reply;
mod request;
mod route;
mod take;

pub use next::{next_item, nothing_known, stream_stays_known};
pub use path::{is_namespace, is_object_name};
pub use refusal::refusal_body;
pub use reply::{Page, Reply, bad_reply, reply_bytes, reply_reads_back};
pub use request::{Known, Length, Next, Request, Taken, Verb};
pub use route::{Route, path_has_one_route, route_of};
pub use take::{
    request_needs_no_more, stream_has_one_answer, stream_keeps_items, stream_splits_once,
    take_request,
};
