// The status page of a running station: what a request is answered, as a function of a snapshot.
//
// `StatusPage` is a service of `http_server` over one snapshot. It answers GET and HEAD of four paths:
// `/`, a page for people; `/status.json`; `/metrics`, for Prometheus; and `/health`, which is 200 or
// 503. Its clause is `answer` of `specs/Answers.antt`, down to the octets: a function of the snapshot,
// the method and the path. Numbers are two tables, `Number` and `DoorNumber`, which JSON and metrics go
// over.
//
// A request costs a walk over the snapshot, and the memory of its answer.
#![tactic(auto)]

mod door_metrics;
mod door_number;
mod flag;
mod json_parts;
mod json_status;
mod metric_lines;
mod metrics;
mod number;
mod resource;
mod service;

pub use door_number::DoorNumber;
pub use json_status::json_text;
pub use metrics::metrics_text;
pub use number::Number;
pub use resource::Resource;
pub use service::StatusPage;
