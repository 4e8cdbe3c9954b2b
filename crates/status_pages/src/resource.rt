//! What can be asked for.

ghost use Rattle.std.specs.Prelude.{◌≡◌, ◌↔◌, ◌⊎◌, codes, IsTrue, IfOk, string_bytes};
ghost use Rattle.http_header.specs.FieldValue.{plain_value};
ghost use Rattle.status_pages.specs.Resources.{IsAt, kind_of, status_of, text_of};

use crate::json_of;
use http::{HeaderValue, StatusCode};
use status_figures::Figures;
use status_texts::{cluster_of, gate_of, metrics_of, page_of};
use std::alloc::{AllocError, Global};

/// What can be asked for.
#[derive(Clone, Copy, Debug, PartialEq, Eq)]
pub enum Resource {
    /// The page for people, at `/`.
    Page,
    /// The page of all nodes, as this one knows them, at `/cluster`.
    Cluster,
    /// The metrics for Prometheus, at `/metrics`.
    Metrics,
    /// The figures as JSON, at `/status.json`.
    Json,
    /// Whether the node runs, at `/healthz`.
    Health,
    /// Whether the node is caught up, and else what holds it up, at `/caught-up`.
    CaughtUp,
}

impl Resource {
    /// What is at a path.
    pub fn at(path: &str) -> Option<Resource>
        ensures { IsAt path.now result }
    {
        if path == "/" {
            Some(Resource::Page)
        } else if path == "/cluster" {
            Some(Resource::Cluster)
        } else if path == "/metrics" {
            Some(Resource::Metrics)
        } else if path == "/status.json" {
            Some(Resource::Json)
        } else if path == "/healthz" {
            Some(Resource::Health)
        } else if path == "/caught-up" {
            Some(Resource::CaughtUp)
        } else {
            None
        }
    }

    /// Its media type.
    pub(crate) fn kind(self) -> HeaderValue
        ensures { result ≡ plain_value (kind_of self) }
    {
        match self {
            Resource::Page | Resource::Cluster => {
                HeaderValue::from_static("text/html; charset=utf-8")
            }
            Resource::Metrics => {
                HeaderValue::from_static("text/plain; version=0.0.4; charset=utf-8")
            }
            Resource::Json => HeaderValue::from_static("application/json"),
            Resource::Health | Resource::CaughtUp => {
                HeaderValue::from_static("text/plain; charset=utf-8")
            }
        }
    }

    /// 503 for `/caught-up` where the node isn't caught up, and else 200.
    pub(crate) fn status(self, figures: &Figures) -> StatusCode
        ensures { result ≡ status_of self figures.now }
    {
        match self {
            Resource::CaughtUp if !figures.is_caught_up() => StatusCode::SERVICE_UNAVAILABLE,
            _ => StatusCode::OK,
        }
    }

    /// Its text.
    pub(crate) fn text(self, alloc: Global, figures: &Figures) -> Result<String, AllocError>
        ensures { IfOk result (λ text. string_bytes text ≡ text_of self figures.now) }
    {
        match self {
            Resource::Page => page_of(alloc, figures),
            Resource::Cluster => cluster_of(alloc, figures),
            Resource::Metrics => metrics_of(alloc, figures),
            Resource::Json => json_of(alloc, figures),
            Resource::Health => String::from_str(alloc, "up\n"),
            Resource::CaughtUp => {
                if figures.is_caught_up() {
                    String::from_str(alloc, "caught up\n")
                } else {
                    gate_of(alloc, figures)
                }
            }
        }
    }
}
