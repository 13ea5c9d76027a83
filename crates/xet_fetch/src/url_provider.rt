//! Hands out the URL of one block, and refreshes it.
ghost use Rattle.std.specs.Prelude.{◌≡◌, ◌<◌, IfErr, length};
ghost use Rattle.xet_error.specs.declared.error.FileReconstructionError.TheVariants.{OutOfMemory};
ghost use Rattle.xet_fetch.specs.Providers.{HandedCall, IsRefreshError, RefreshedCall};

use std::alloc::Global;
use xet_base::UniqueId;
use xet_blocks::{RetrievalUrl, TermBlockRetrievalURLs, XorbBlock};
use xet_error::Result;
use xet_outside::Client;
use xet_requests::refresh_retrieval_urls;

/// Hands out a URL, and a newer one after a refresh.
///
/// In the Rust crates: `cas_client::URLProvider`.
pub trait URLProvider {
    /// The URL, with memory of its own. `OutOfMemory` where memory was refused, and no other error.
    fn retrieve_url(&mut self, alloc: Global) -> Result<RetrievalUrl>
        ensures error { IfErr result (λ e. e ≡ OutOfMemory) };

    /// Asks for newer URLs, where those of the last `retrieve_url` are the newest. `OutOfMemory`, `ClientError`,
    /// `FileNotFound` or `CorruptedReconstruction`, as `refresh_retrieval_urls` has them.
    fn refresh_url(&mut self, alloc: Global) -> Result<()>
        ensures error { IfErr result IsRefreshError };
}

/// The URL of one block of a plan.
///
/// In the Rust crate: `file_reconstruction::reconstruction_terms::retrieval_urls::XorbURLProvider`.
#[derive(Drop)]
pub struct XorbURLProvider<'a, C: Client> {
    pub(crate) client: &'a mut C,
    pub(crate) url_info: &'a mut TermBlockRetrievalURLs,
    pub(crate) blocks: &'a [XorbBlock],
    pub(crate) multirange: bool,
    pub(crate) xorb_block_index: usize,
    // the id of the last URL that was handed out
    pub(crate) last: UniqueId,
    ghost in_table: { xorb_block_index < length url_info.now.retrieval_urls },
    ghost in_blocks: { xorb_block_index < length blocks.now },
}

impl<'a, C: Client> XorbURLProvider<'a, C> {
    /// A provider of the URL of this block. It holds the null id, so that a refresh before a retrieval does nothing
    /// where the table's id isn't null.
    pub fn new(
        client: &'a mut C,
        url_info: &'a mut TermBlockRetrievalURLs,
        blocks: &'a [XorbBlock],
        multirange: bool,
        xorb_block_index: usize,
    ) -> XorbURLProvider<'a, C>
        requires in_table { xorb_block_index < length url_info.old.retrieval_urls }
        requires in_blocks { xorb_block_index < length blocks.now }
        ensures last { result.last ≡ record { plan = 0; refresh = 0 } }
        ensures index { result.xorb_block_index ≡ xorb_block_index }
        ensures multirange { result.multirange ≡ multirange }
        ensures blocks { result.blocks.now ≡ blocks.now }
        ensures table { result.url_info.now ≡ url_info.old }
        ensures same_table { result.url_info.ghost_name ≡ url_info.entry.ghost_name }
        ensures client { C.told result.client.now ≡ C.told client.old }
        ensures same_client { result.client.ghost_name ≡ client.entry.ghost_name }
    {
        XorbURLProvider {
            client,
            url_info,
            blocks,
            multirange,
            xorb_block_index,
            last: UniqueId::null(),
        }
    }
}

impl<'a, C: Client> URLProvider for XorbURLProvider<'a, C> {
    /// The URL of the block in the table. `OutOfMemory` where memory was refused.
    fn retrieve_url(&mut self, alloc: Global) -> Result<RetrievalUrl>
        ensures error { IfErr result (λ e. e ≡ OutOfMemory) }
        ensures call { HandedCall self.old.url_info.now self.old.xorb_block_index self.old.last self.new.last result }
        ensures table { self.new.url_info.now ≡ self.old.url_info.now }
        ensures client { C.told self.new.client.now ≡ C.told self.old.client.now }
        ensures index { self.new.xorb_block_index ≡ self.old.xorb_block_index }
        ensures multirange { self.new.multirange ≡ self.old.multirange }
        ensures blocks { self.new.blocks.now ≡ self.old.blocks.now }
        ensures same_table { self.new.url_info.ghost_name ≡ self.old.url_info.ghost_name }
        ensures same_client { self.new.client.ghost_name ≡ self.old.client.ghost_name }
    {
        let Some((id, found)) = self.url_info.get_retrieval_url(self.xorb_block_index) else {
            unreachable!()
        };
        let url = found.url.copied()?;
        let ranges = found.ranges.copied(alloc)?;
        self.last = id;
        Ok(RetrievalUrl { url, ranges })
    }

    /// `refresh_retrieval_urls` with the id of the last `retrieve_url`.
    fn refresh_url(&mut self, alloc: Global) -> Result<()>
        ensures error { IfErr result IsRefreshError }
        ensures call { RefreshedCall self.old.url_info.now self.new.url_info.now (C.told self.old.client.now)
            (C.told self.new.client.now) self.old.last self.old.blocks.now self.old.multirange result }
        ensures last { self.new.last ≡ self.old.last }
        ensures index { self.new.xorb_block_index ≡ self.old.xorb_block_index }
        ensures multirange { self.new.multirange ≡ self.old.multirange }
        ensures blocks { self.new.blocks.now ≡ self.old.blocks.now }
        ensures same_table { self.new.url_info.ghost_name ≡ self.old.url_info.ghost_name }
        ensures same_client { self.new.client.ghost_name ≡ self.old.client.ghost_name }
    {
        refresh_retrieval_urls(
            alloc,
            self.url_info,
            self.client,
            self.last,
            self.blocks,
            self.multirange,
        )
    }
}
