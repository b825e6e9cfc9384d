// What answers the requests.
ghost use Rattle.std.specs.Prelude.{◌≡◌, IfOk, OnOk};
ghost use Rattle.http_server.specs.Response.{IsBlank};
ghost use Rattle.status_page.specs.Answers.{is_read, body_of, code_of, IsAnswer, found, not_found};
ghost use Rattle.status_page.specs.Answers.{not_allowed};

use crate::json_status::json_text;
use crate::metrics::metrics_text;
use crate::resource::Resource;
use bytes::Bytes;
use http::header::{ALLOW, CACHE_CONTROL, CONNECTION, CONTENT_TYPE};
use http::{HeaderValue, Request, StatusCode};
use http_server::{Response, Service};
use station_health::{health_text, is_healthy};
use station_snapshot::Snapshot;
use status_view::page_text;
use std::alloc::{AllocError, Global};

/// Answers requests by one snapshot.
#[derive(Drop)]
pub struct StatusPage {
    /// Where answers take their memory.
    pub alloc: Global,
    /// What is shown.
    pub snapshot: Snapshot,
}

// True if a method only reads.
fn is_read(method: &str) -> bool
    ensures { result ≡ is_read method.now }
{
    method == "GET" || method == "HEAD"
}

// The status of a resource.
fn code_of(resource: Resource, snapshot: &Snapshot) -> StatusCode
    ensures { result ≡ code_of resource snapshot.now }
{
    if resource == Resource::Health && !is_healthy(snapshot) {
        return StatusCode::SERVICE_UNAVAILABLE;
    }
    StatusCode::OK
}

// The content of a resource.
fn body_of(alloc: Global, resource: Resource, snapshot: &Snapshot) -> Result<Vec<u8>, AllocError>
    ensures { IfOk result (λ text. text.items ≡ body_of resource snapshot.now) }
{
    match resource {
        Resource::Page => page_text(alloc, snapshot),
        Resource::Json => json_text(alloc, snapshot),
        Resource::Metrics => metrics_text(alloc, snapshot),
        Resource::Health => health_text(alloc, snapshot),
    }
}

// Shows a resource.
fn show(
    alloc: Global,
    resource: Resource,
    snapshot: &Snapshot,
    response: &mut Response,
) -> Result<(), AllocError>
    requires { IsBlank response.old }
    ensures { OnOk result (IsAnswer (found resource snapshot.now) response.new) }
{
    let body = body_of(alloc, resource, snapshot)?;
    response.status = code_of(resource, snapshot);
    response.add_header(CONTENT_TYPE, HeaderValue::from_static(resource.kind()))?;
    response.add_header(CACHE_CONTROL, HeaderValue::from_static("no-store"))?;
    response.add_header(CONNECTION, HeaderValue::from_static("close"))?;
    response.body.push(Bytes::from_vec(body)?)
}

// Answers that nothing is there.
fn refuse_path(response: &mut Response) -> Result<(), AllocError>
    requires { IsBlank response.old }
    ensures { OnOk result (IsAnswer not_found response.new) }
{
    response.status = StatusCode::NOT_FOUND;
    response.add_header(CONNECTION, HeaderValue::from_static("close"))
}

// Answers that it can only be read.
fn refuse_method(response: &mut Response) -> Result<(), AllocError>
    requires { IsBlank response.old }
    ensures { OnOk result (IsAnswer not_allowed response.new) }
{
    response.status = StatusCode::METHOD_NOT_ALLOWED;
    response.add_header(ALLOW, HeaderValue::from_static("GET, HEAD"))?;
    response.add_header(CONNECTION, HeaderValue::from_static("close"))
}

impl Service for StatusPage {
    ghost use Rattle.std.specs.Prelude.{◌≡◌};
    ghost use Rattle.status_page.specs.Answers.{Answers};

    ghost answers = { λ old request response new.
        (new ≡ old) × Answers old.snapshot request response };

    fn call(
        &mut self,
        request: &Request<Bytes>,
        response: &mut Response,
    ) -> Result<(), AllocError> {
        let is_read = is_read(request.method().as_str());
        match Resource::at(request.uri().path()) {
            None => refuse_path(response),
            Some(resource) if is_read => show(self.alloc, resource, &self.snapshot, response),
            Some(_) => refuse_method(response),
        }
    }
}
