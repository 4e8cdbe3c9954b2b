//! A request and its answer.

ghost use Rattle.std.specs.Prelude.{◌≡◌, ◌⊎◌, ◌↔◌, [], ◌∷◌, codes, IsTrue, OnOk};
ghost use Rattle.http_server.specs.Response.{IsBlank, IsResponse};
ghost use Rattle.status_pages.specs.Answers.{fields, misdirected_text, not_allowed_fields, not_found_text, not_allowed_text};
ghost use Rattle.status_pages.specs.Resources.{kind_of, status_of, text_of};

use crate::resource::Resource;
use bytes::BufMut;
use http::{HeaderName, HeaderValue, StatusCode};
use http_server::Response;
use status_figures::Figures;
use std::alloc::{AllocError, Global};

/// Fills in what is there.
pub(crate) fn show(
    alloc: Global,
    resource: Resource,
    figures: &Figures,
    response: &mut Response,
) -> Result<(), AllocError>
    requires { IsBlank response.old }
    ensures { OnOk result (IsResponse (status_of resource figures.now) (fields (kind_of resource)) (text_of resource figures.now) response.new) }
{
    let text = resource.text(alloc, figures)?;
    response.status = resource.status(figures);
    response.add_header(HeaderName::from_static("content-type"), resource.kind())?;
    let stored = HeaderValue::from_static("no-store");
    response.add_header(HeaderName::from_static("cache-control"), stored)?;
    response.body.put_slice(text.as_bytes())?;
    Ok(())
}

/// Says that nothing is there.
pub(crate) fn miss(response: &mut Response) -> Result<(), AllocError>
    requires { IsBlank response.old }
    ensures { OnOk result (IsResponse 404 [] not_found_text response.new) }
{
    response.status = StatusCode::NOT_FOUND;
    response.body.put_slice(b"not found\n")?;
    Ok(())
}

/// Says that it can only be read.
pub(crate) fn forbid(response: &mut Response) -> Result<(), AllocError>
    requires { IsBlank response.old }
    ensures { OnOk result (IsResponse 405 not_allowed_fields not_allowed_text response.new) }
{
    response.status = StatusCode::METHOD_NOT_ALLOWED;
    let allowed = HeaderValue::from_static("GET, HEAD");
    response.add_header(HeaderName::from_static("allow"), allowed)?;
    response.body.put_slice(b"not allowed\n")?;
    Ok(())
}

/// Says that another host is asked.
pub(crate) fn misdirect(response: &mut Response) -> Result<(), AllocError>
    requires { IsBlank response.old }
    ensures { OnOk result (IsResponse 421 [] misdirected_text response.new) }
{
    response.status = StatusCode::MISDIRECTED_REQUEST;
    response.body.put_slice(
        b"misdirected: ask by an IP address, as localhost, by the name of the node, or by one of --status-host\n",
    )?;
    Ok(())
}
