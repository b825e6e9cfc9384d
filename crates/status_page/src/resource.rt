// What is at the paths of a status page.
ghost use Rattle.std.specs.Prelude.{◌≡◌};
ghost use Rattle.status_page.specs.Answers.{resource_at, kind_of};

/// What a path names.
#[derive(Clone, Copy, Debug, PartialEq, Eq)]
pub enum Resource {
    /// The page for people.
    Page,
    /// The status as JSON.
    Json,
    /// The status as metrics.
    Metrics,
    /// Whether the station is healthy.
    Health,
}

impl Resource {
    /// What is at a path.
    pub fn at(path: &str) -> Option<Resource>
        ensures { result ≡ resource_at path.now }
    {
        if path == "/" {
            Some(Resource::Page)
        } else if path == "/status.json" {
            Some(Resource::Json)
        } else if path == "/metrics" {
            Some(Resource::Metrics)
        } else if path == "/health" {
            Some(Resource::Health)
        } else {
            None
        }
    }

    /// The media type of its content.
    pub fn kind(self) -> &'static str
        ensures { result.now ≡ kind_of self }
    {
        match self {
            Resource::Page => "text/html; charset=utf-8",
            Resource::Json => "application/json",
            Resource::Metrics => "text/plain; version=0.0.4",
            Resource::Health => "text/plain; charset=utf-8",
        }
    }
}
