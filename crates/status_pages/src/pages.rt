//! What answers requests.

ghost use Rattle.std.specs.Prelude.{◌≡◌, ◌⊎◌, ◌↔◌, codes, IsTrue, OnOk};
ghost use Rattle.http.specs.Request.{head_of};
ghost use Rattle.http_server.specs.Response.{IsBlank};
ghost use Rattle.http_uri.specs.Uri.{uri_path};
ghost use Rattle.status_pages.specs.Answers.{IsAnswerAt};

use crate::answer::{forbid, misdirect, miss, show};
use crate::hosts::fits;
use crate::resource::Resource;
use bytes::Bytes;
use http::Request;
use http_server::{Response, Service};
use status_figures::Figures;
use std::alloc::{AllocError, Global};

/// Answers requests by the figures of a node, which may be asked by these names too, and knows whether it was asked.
#[derive(Drop)]
pub struct Pages<'a> {
    alloc: Global,
    figures: &'a Figures,
    names: &'a str,
    asked: bool,
}

impl<'a> Pages<'a> {
    /// Pages by these figures, for which nobody has asked. The names, with commas between them, are hosts that the node may be asked by, beside an IP
    /// address, `localhost` and its own name.
    pub fn new(alloc: Global, figures: &'a Figures, names: &'a str) -> Pages<'a>
        ensures figures { result.figures.now ≡ figures.now }
        ensures names { result.names.now ≡ names.now }
        ensures asked { IsTrue result.asked → ⊥ }
    {
        Pages {
            alloc,
            figures,
            names,
            asked: false,
        }
    }

    /// Whether a request was answered.
    pub fn asked(&self) -> bool
        ensures { result ≡ self.now.asked }
    {
        self.asked
    }
}

/// Whether a method only reads.
fn reads(method: &str) -> bool
    ensures { IsTrue result ↔ ((method.now ≡ codes "GET") ⊎ (method.now ≡ codes "HEAD")) }
{
    method == "GET" || method == "HEAD"
}

/// Answers a request by a host that fits.
fn answer(
    alloc: Global,
    figures: &Figures,
    request: &Request<Bytes>,
    response: &mut Response,
) -> Result<(), AllocError>
    requires { IsBlank response.old }
    ensures { OnOk result (IsAnswerAt (uri_path (head_of request.now).uri) (head_of request.now).method figures.now response.new) }
{
    match Resource::at(request.uri().path()) {
        Some(resource) if reads(request.method().as_str()) => {
            show(alloc, resource, figures, response)
        }
        Some(_) => forbid(response),
        None => miss(response),
    }
}

impl Service for Pages<'_> {
    ghost use Rattle.status_pages.specs.Answers.{IsAnswered};

    ghost answers = { IsAnswered };

    fn call(
        &mut self,
        request: &Request<Bytes>,
        response: &mut Response,
    ) -> Result<(), AllocError> {
        if fits(request, &self.figures.name, self.names) {
            answer(self.alloc, self.figures, request, response)?;
        } else {
            misdirect(response)?;
        }
        self.asked = true;
        Ok(())
    }
}
