//! Where a session's data goes.
ghost use Rattle.std.specs.Prelude.{◌≡◌, ◌↔◌, ◌++◌, [], ◌∷◌, IfOk, IsTrue, MatchBool, MatchOption, None, codes};
ghost use Rattle.xet_pointer.specs.Endpoints.{Begins};

use std::alloc::Global;
use xet_base::{List, OutOfMemory, Text};

/// Where a session's data goes, and under which names.
///
/// In the Rust crate xet-data: `processing::configurations::SessionContext`.
#[derive(Debug, Drop)]
pub struct SessionContext {
    /// The endpoint, as `local:///srv/files` or `memory://`.
    pub endpoint: Text,
    /// The paths of the repositories.
    pub repo_paths: List<Text>,
    /// The session's name, where it has one.
    pub session_id: Option<Text>,
}

impl SessionContext {
    /// Whether the endpoint begins with this scheme.
    ///
    /// In the Rust crate: `SessionContext::is_local`, whose scheme is a setting.
    pub fn is_local(&self, scheme: &str) -> bool
        ensures { MatchBool result (Begins self.now.endpoint scheme.now) (¬ Begins self.now.endpoint scheme.now) }
    {
        self.endpoint.as_str().starts_with(scheme)
    }

    /// The endpoint after this scheme, where it begins with it.
    ///
    /// In the Rust crate: `SessionContext::local_path`, whose scheme is a setting.
    pub fn local_path(&self, scheme: &str) -> Option<&str>
        ensures { MatchOption result (¬ Begins self.now.endpoint scheme.now)
            (λ path. self.now.endpoint ≡ scheme.now ++ path.now) }
    {
        self.endpoint.as_str().strip_prefix(scheme)
    }

    /// Whether the endpoint is `memory://`.
    ///
    /// In the Rust crate: `SessionContext::is_memory`.
    pub fn is_memory(&self) -> bool
        ensures { IsTrue result ↔ (self.now.endpoint ≡ codes "memory://") }
    {
        self.endpoint.as_str() == "memory://"
    }

    /// The settings of a folder: its endpoint is the scheme and then the folder. It has one repository path, the empty
    /// text, and no session id.
    ///
    /// `OutOfMemory` where memory was refused.
    ///
    /// In the Rust crate: `SessionContext::for_local_path`, whose scheme is a setting.
    pub fn for_local_path(
        alloc: Global,
        base_dir: &str,
        scheme: &str,
    ) -> Result<SessionContext, OutOfMemory>
        ensures { IfOk result (λ context. context
            ≡ record { endpoint = scheme.now ++ base_dir.now; repo_paths = [] ∷ []; session_id = None }) }
    {
        let mut endpoint = String::from_str(alloc, scheme)?;
        endpoint.push_str(base_dir)?;
        Ok(SessionContext {
            endpoint: Text::from_string(endpoint),
            repo_paths: one_empty_path(alloc)?,
            session_id: None,
        })
    }

    /// The settings of data in memory: its endpoint is `memory://`. It has one repository path, the empty text, and no
    /// session id.
    ///
    /// `OutOfMemory` where memory was refused.
    ///
    /// In the Rust crate: `SessionContext::for_memory`.
    pub fn for_memory(alloc: Global) -> Result<SessionContext, OutOfMemory>
        ensures { IfOk result (λ context. context
            ≡ record { endpoint = codes "memory://"; repo_paths = [] ∷ []; session_id = None }) }
    {
        Ok(SessionContext {
            endpoint: Text::from_string(String::from_str(alloc, "memory://")?),
            repo_paths: one_empty_path(alloc)?,
            session_id: None,
        })
    }
}

// One repository path, the empty text.
fn one_empty_path(alloc: Global) -> Result<List<Text>, OutOfMemory>
    ensures { IfOk result (λ paths. paths ≡ [] ∷ []) }
{
    let mut paths = List::new(alloc);
    paths.push(Text::from_string(String::new(alloc)))?;
    Ok(paths)
}
