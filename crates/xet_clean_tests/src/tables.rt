//! Rows of scripts: the settings of a session, its calls, and what each answers, with the session's puts by then.
//!
//! Hashes were computed from the definitions. A xorb's record counts for 36 bytes and 36 for each of its chunks, a
//! file's for 32, 44 for each of its terms, and 32 with SHA-256.
use crate::scripts::play_each;

const FILES: &str = "\
- | clean 16 32 no digest wanted; end => 0 \
44292741a8ff7b81124630a00064655ae23e81232c20ba5ee0a17d0e68fd8cc4 16; 1 0 16 148 16 16 16 16 xs;
- | given 16 32 no digest wanted; end => 0 \
44292741a8ff7b81124630a00064655ae23e81232c20ba5ee0a17d0e68fd8cc4 16 \
abababababababababababababababababababababababababababababababab; 1 0 16 180 16 16 16 16 xs;
- | sha 17 32 Clean me, please!; end => 0 \
206a003e2f6f2c5f4fe299cc26922c5f0f336f732b0095ba9e983f57f4767428 17 \
633547741153b3af36073c27e5e93ce94b8c1b5287b8436539692002465aaf3b; 1 0 17 180 17 17 17 17 xs;
dry | clean 5 32 Hello; end => 0 \
ceec83669ec066f3d710059e3ab01a7c2ea7daf531d75df20c81fb4044c032da 5; 1 0 5 148 5 5 5 5 x;
known | clean - 32 Hello; end => 0 \
ceec83669ec066f3d710059e3ab01a7c2ea7daf531d75df20c81fb4044c032da 5; 0 1 0 76 5 5 0 0 s;
- | clean - 3 /H/ello/, /w; end => 0 0 0 0 0 \
5ceb4d9c864defaf1e8c6cc207631803a41236de2cc0c44c88929086d2f5b0d4 8; 3 0 8 220 8 8 8 8 xs;
- | clean - 5 Hello/, world!; item 1; cut; item 1; clean 13 5 Hello/, world!; item 2; end => 0 0 \
9c1d9657cd59293907594624a7d18217d2404474880ceb3df08757d4920df2df 13; 0 13; 0 x; 13 13 x; 0 0 \
9c1d9657cd59293907594624a7d18217d2404474880ceb3df08757d4920df2df 13 x; 13 13 x; 3 3 13 296 26 26 13 13 xs;
- | feed - 131072 */*/*/*/*/*/*/*/*/*/*/*/*/*/*/*/*; end => \
0 0 0 0 0 0 0 0 0 0 0 0 0 0 0 0 0 0; 2 0 139264 184 139264 139264 139264 139264 xs;
- | feed 7 1+1 abcdefg; end => 0 0; 4 0 7 256 7 7 7 7 xs;
first=18446744073709551613 | begin 18446744073709551615; feed 1 5 x; feed - 5 x => 18446744073709551613 0; \
InvalidOperation(SumTooGreat { have: 18446744073709551615, add: 1 }); InvalidOperation(IdsUsedUp);
cut=4 | feed 3 5 ab/cd; begin 18446744073709551609; feed - 5 ab/cd => \
0 InvalidOperation(PastTotal { total: 3, counted: 2, increment: 2 }) \
InvalidOperation(PastTotal { total: 3, counted: 2, increment: 2 }); 2 1; \
0 InvalidOperation(SumTooGreat { have: 18446744073709551614, add: 2 }) \
InvalidOperation(SumTooGreat { have: 18446744073709551614, add: 2 });
cut=4 call=0 | feed - 5 Hello/, world! => IOError IOError IOError;
cut=4 call=1 | feed - 5 Hello/, world! => 0 IOError IOError;
cut=4 call=3 | feed - 5 Hello/, world! => 0 0 IOError x;
cut=4 put=0 | feed - 5 Hello/, world! => 0 0 ClientError;
cut=4 put=0 | feed - 1 */a => 0 ClientError ClientError;
- | upload 13 sha 7,1 Hello, world! And more.+0 skip ! unread+13 given 99 Hello, world!; end => \
9c1d9657cd59293907594624a7d18217d2404474880ceb3df08757d4920df2df 13 \
315f5bdb76d078c43b8ac0064e4a0164612b1fce77c869345bfc94c75894edd3 \
dbc1b4c900ffe48d575b5da5c638040125f65db0fe3e24494b76ea986457d986 0 \
9c1d9657cd59293907594624a7d18217d2404474880ceb3df08757d4920df2df 13 \
abababababababababababababababababababababababababababababababab; 6 0 26 500 26 26 26 26 xs;
cut=100 | upload 13 skip 99 Hello, world!+5 skip 2,2 abc; end => \
SourceEnded { expected: 5, actual: 3 }; 3 0 13 220 13 18 13 13 xs;
cut=100 | upload 13 skip 99 Hello, world!+3 skip 2,! abc; end => IOError; 3 0 13 220 13 16 13 13 xs;
cut=4 put=0 | upload 13 skip 99 Hello, world!+3 skip 2,2 abc; end => ClientError; ClientError;";

#[test]
fn files(rt: HostRuntime) {
    play_each(&rt, rt.alloc(), "", FILES);
}

const SESSIONS: &str = "\
- | hold 1; begin 10; item 1; group => 0; 1 0; 0 10; 1 0 10 0 0;
- | begin 10; begin -; grow 1 4; grow 2 4; depend 3 Hello; external 1 Hello; group => \
1 0; 2 1; 0; InvalidOperation(UnknownFile { id: 2 }); 0; 0; 2 1 14 0 0;
- | begin 10; begin 4; depend 3 Hello; external 1 Hello; give 11 Hello; give 5 Hello; give 2 Hello; group; item 1; \
item 2 => \
1 0; 2 1; 0; 0; InvalidOperation(PastTotal { total: 10, counted: 0, increment: 11 }); 0 x; 9 x; 2 11 14 5 5 x; \
7 10 x; 4 4 x;
asks | find Hello; hand Hello; find Hello; ask world Hello world; ask world => 0; 0 x; 1 x; 1 x; 0 x;
old | find Hello; give 0 world; end; find Hello => 1; 0 x; 0 0 5 72 0 0 5 5 xs; 0 xs;
- | give 0 Hello; give 0 world; list; end; give 0 more => \
0 x; 0 xx; 10 144 154 0 xxs; InvalidOperation(Finalized) xxs; InvalidOperation(Finalized) xxs;
dry | give 0 Hello; end => 0 x; 0 0 5 72 0 0 5 5 x;
- | begin 10; begin 10; give 3; depend 2; give 4; item 1; item 2 => 1 0; 2 1; 0; 0; 0; 7 10; 2 10;
- | begin 10; begin -; final 1; final 2 => 1 0; 2 1; 1; 0;
- | feed - 5 Helloworld; cut; find Hello/world; find world/Hello; find other/Hello => 0 0; 0 x; 2 x; 1 x; 0 x;
put=0 | give 0 Hello; group => ClientError; 0 0 0 0 5;
put=0 | feed 5 32 Hello; end; end => 0 0; ClientError; InvalidOperation(Finalized);";

#[test]
fn sessions(rt: HostRuntime) {
    play_each(&rt, rt.alloc(), "", SESSIONS);
}

const FAILED_STORES: &str = "\
call=0 | give 0 Hello; give 0 Hello => IOError x; 9 x;
call=1 | give 0 Hello; end; end => 0 x; IOError x; InvalidOperation(Finalized) x;
call=2 | give 0 Hello; end; end => 0 x; IOError x; InvalidOperation(Finalized) x;
stage=1 staged=0 | give 0 one; give 0 one; give 0 two; end => IOError x; 9 x; 0 xx; 0 0 6 144 0 0 6 6 xxs;
stage=2 staged=0 | give 0 one; give 0 two; give 0 three; end => 0 x; IOError xx; 0 xxx; 0 0 11 216 0 0 11 11 xxxs;
cut=4 stage=1 staged=0 | feed - 5 Hello/, world!; end => 0 0 IOError x; 0 0 13 220 13 13 13 13 xs;
stage=1 staged=0 | feed 5 32 Hello; end; end => 0 0; IOError x; InvalidOperation(Finalized) x;
cached=0 | find Hello; feed 5 32 Hello; end => IOError; 0 0; 1 0 5 148 5 5 5 5 xs;
known cached=0 | find Hello; find Hello => IOError; 1;
cached=0 | give 0 Hello; end; end => 0 x; IOError xs; InvalidOperation(Finalized) xs;
old resumed=0 | find Hello; find Hello; give 0 world; end => IOError; 1; 0 x; 0 0 5 72 0 0 5 5 xs;
old resumed=0 | give 0 world; end; find Hello => 0 x; 0 0 5 72 0 0 5 5 xs; 1 xs;";

#[test]
fn a_failed_store_is_told(rt: HostRuntime) {
    play_each(&rt, rt.alloc(), "", FAILED_STORES);
}

/// Three xorbs, the first of them twice, one without chunks, a cut, the end and a cut after it.
const XORBS: &str = "give 0 one; give 0 two; give 0 one; give 0; give 0 three; cut; end; cut";

const FAILED_XORBS: &str = "\
shard=200 stage=2 put=0 => \
ClientError; ClientError; ClientError; 0; ClientError; ClientError; ClientError; ClientError;
shard=200 stage=2 put=1 => \
0 x; ClientError x; 9 x; 0 x; ClientError x; ClientError x; ClientError x; ClientError x;
shard=200 stage=2 put=2 => \
0 x; 0 xx; 9 xx; 0 xx; ClientError xx; ClientError xx; ClientError xx; ClientError xx;
shard=200 stage=2 put=3 => 0 x; 0 xx; 9 xx; 0 xx; 0 xxx; 0 xxx; ClientError xxx; ClientError xxx;
shard=200 stage=2 put=4 => 0 x; 0 xx; 9 xx; 0 xx; 0 xxx; 0 xxx; ClientError xxxs; ClientError xxxs;
shard=200 stage=2 put=5 => 0 x; 0 xx; 9 xx; 0 xx; 0 xxx; 0 xxx; 0 0 11 216 0 0 11 11 xxxss; 0 xxxss;";

/// A file that waits, one by which that is cut, one that is cut itself, a cut, the end, and a file after it.
const TEXTS: &str = "feed 4 32 abcd; feed 3 32 xyz; feed 5 32 equal; cut; end; feed 4 32 late";

const FAILED_FILES: &str = "\
cut=4 put=0 => 0 0; 0 ClientError; 0 ClientError; ClientError; ClientError; InvalidOperation(Finalized);
cut=4 put=1 => 0 0; 0 0 x; 0 ClientError x; ClientError x; ClientError x; InvalidOperation(Finalized) x;
cut=4 put=2 => 0 0; 0 0 x; 0 0 xx; ClientError xx; ClientError xx; InvalidOperation(Finalized) xx;
cut=4 put=3 => 0 0; 0 0 x; 0 0 xx; 0 xxx; ClientError xxx; InvalidOperation(Finalized) xxx;
cut=4 put=4 => 0 0; 0 0 x; 0 0 xx; 0 xxx; 3 0 12 444 12 12 12 12 xxxs; InvalidOperation(Finalized) xxxs;";

#[test]
fn each_put_fails_in_turn(rt: HostRuntime) {
    play_each(&rt, rt.alloc(), XORBS, FAILED_XORBS);
    play_each(&rt, rt.alloc(), TEXTS, FAILED_FILES);
}
