//! Texts that are printed as they stand.

/// What `--help` prints.
pub const HELP: &[u8] = b"\
xet_tool: prints a range of a file of a Xet store, fetches ranges of one in any order or answers a
session of requests for ranges, tells what is wrong with a store or drops what no file needs, copies
files to a store that lacks them, runs a script of calls of a tracker, fetches a made file, or uploads
one and downloads it

usage:
  xet_tool get HASH START END [OPTION ..]
                                print bytes START to before END of the file HASH
  xet_tool audit [hashes]       print what is wrong with a store, and which xorbs no file names
  xet_tool compact              print a store without the xorbs and chunks that no file needs
  xet_tool mirror [verify]      copy files between two stores in memory, and print what that took
  xet_tool resume HASH LENGTH START END [START END ..]
                                fetch ranges of a file, and print what is still missing
  xet_tool serve [OPTION ..]    answer a session of requests for ranges of files
  xet_tool track                make the calls of a script, and print the reply to each
  xet_tool bench N [OPTION ..]  fetch a made file of N terms, and print what its bytes come to
  xet_tool roundtrip N          upload a made file of N bytes, and download it by its pointer
  xet_tool --help               print this text
  xet_tool --version            print the version
  Other words, also -h, help or none at all, do not read.

words of get:
  HASH        the file's hash: 64 hexadecimal digits
  START, END  places in the file in bytes, counted from 0: 1 to 20 decimal digits of at most
              18446744073709551615. END may also be the word end. What lies past the file's end
              is cut off, and a range with END at or before START is empty.

words of audit:
  hashes      compute the hashes of xorbs and files too, which takes as long as the files have
              chunks, each as often as terms have it

words of mirror:
  verify      compare the hash of each xorb that the target gets with that of its chunks

words of resume:
  HASH        the file's hash, as that of get
  LENGTH      how many bytes the file has: a number as START is
  START, END  a range of the file, 1 to 16 pairs: numbers as START of get is, and END may be the
              word end. What lies at or past LENGTH is cut off, and END at or before START is an
              empty range. A part that is below LENGTH and past the file's end is not cut off: the
              status is 9 then

words of bench:
  N           how many terms the file has: a number as START is, 1 to 100000

words of roundtrip:
  N           how many bytes the file has: a number as START is, 0 to 1000000

options of get, bench and serve, in any order and each at most once, but perfile and limit not for
serve; N is a number as START is:
  lanes=N     fetch over N connections side by side, 0 to 64, else over 1
  least=N     ask for plans of N bytes of the file at least, else 1048576
  greatest=N  and of less than N and the least together, else 67108864
  budget=N    keep N fetched bytes at most that are not written, else 67108864; a term of a file
              that is longer is fetched alone
  perfile=N   and N bytes more for this download, else 0
  limit=N     but N bytes at most in all, else 18446744073709551615
  multi       fetch all ranges of a fetch entry as one block, and not each by itself
  vectored    hand several pieces of the file to one write
  cache       keep what was fetched in a cache of this run, and look there first

input of get:
  A store as one JSON document on standard input, of at most 67108864 bytes:
    {
      \"xorbs\": { HASH: [CHUNK, ..], .. },
      \"files\": { HASH: [[HASH, FROM, TO], ..], .. }
    }
  A CHUNK is a text of hexadecimal digits, two for each byte, and has at least one byte. A file
  is a list of terms: the hash of a xorb, and the numbers of its first chunk and of the one after
  its last, counted from 0. The file's bytes are those of its terms, one after another. Other
  keys are passed over, and of equal keys the last counts. It is no document of a store where a
  term is empty or not inside a xorb, where two keys of xorbs or two of files that differ spell
  one hash, or where a number anywhere has a fraction or an exponent, needs more than 64 bits, or
  is -0.
  While it is read the document is in memory beside its store: mostly a few times its size, and
  ten times at most where each xorb and each file has this form and each number is whole and of
  64 bits, also under keys that are passed over. Else up to 175 times.

input of audit:
  A document as that of get, of any store: a CHUNK may have no byte, a term may be empty or not
  inside a xorb, and keys that differ may spell one hash.

lines of audit:
  finding K A B for each thing that is wrong, by K, then A, then B. Xorbs and files are counted
  from 0 in the order of their keys, chunks and terms in their lists; B is 0 where none is named.
    K is 1  xorb A has an earlier xorb's hash
         2  chunk B of xorb A is empty
         3  xorb A has 4294967296 chunks or bytes or more
         4  file A has an earlier file's hash
         5  term B of file A names no xorb
         6  it names one, and is empty or not inside it
         7  file A, without 5 and 6, has 18446744073709551616 bytes or more
         8  the hash of xorb A is not that of its chunks; with hashes alone
         9  the hash of file A, without 5 and 6, is not that of its chunks; with hashes alone
  spare HASH for each xorb that no file names, by ascending hash. That is no finding.
  Then ok with the numbers of files and of xorbs, or bad with the number of findings. Where no K
  is below 8, get prints each file in any range.

input of compact:
  A document as that of get.

lines of compact:
  The document of a store on one line, with ascending keys and lower-case digits: the same files,
  without xorbs that no file names and chunks that no term holds. A xorb that lost chunks gets
  the hash of those that are left, SHA-256 of the byte 1 and then, for each, of its own hash and
  its length as 4 bytes, the highest first; a chunk's hash is SHA-256 of the byte 0 and its bytes.
  Of two xorbs with one hash then one stays. Then ok with the numbers of xorbs that are left and
  of chunks that no term holds.

input of mirror:
  Two stores and the files that are to be copied from the first to the second:
    { \"source\": STORE, \"target\": STORE, \"files\": [HASH, ..] }
  A STORE is a document as that of get. Other keys are passed over, and what stands under them. It
  does not read where a xorb that both stores have has other chunks in one, or a file that both
  have other bytes. To see that takes as long as the xorbs that both have have bytes, and the files
  that both have terms; where the terms of such a file differ, as long as it has bytes, each chunk
  as often as terms have it. The document stands in memory as a tree, up to 175 times its size. To
  copy a file takes as many steps as it has terms and the xorbs that it names have chunks; each
  such xorb is hashed once.

lines of mirror:
  Each listed file that the target lacks is copied: the xorbs that it names and the target lacks,
  then its record. Of the copies their hashes alone stay in memory. What copying took is printed:
  files with the numbers of listed files that were copied and that the target had, xorbs with the
  numbers of those that it got and of those that the copied files name and it had, bytes with the
  number of bytes of those that it got, a line each, and ok. A file listed twice is copied once.

input of resume:
  A document as that of get.

lines of resume:
  The ranges are fetched in their order into an empty file, of each what no earlier one has. Where
  all are there the file's content is printed as digits, with zeros for what is missing before its
  end; then the record of what is missing: xet-gaps 1, a line with HASH and LENGTH, and a line for
  each gap with its start and the place after its end; and then ok with the number of bytes that
  were fetched.

input of serve:
  On the first line a document as that of get, which has no line end within. Each line behind it
  is of the session, has at most 1024 bytes, and one space between its words:
    GET HASH RANGES         HASH as that of get; RANGES are 1 to 16 ranges START-END with a comma
                            between, START and END as START of get, but without leading zeros
    QUIT                    ends the session; what stands behind this line is passed over
  The last line may lack its line end.

lines of serve:
  The reply to each line, up to the end of the input or QUIT:
    OK K                    to GET of K ranges, and then for each, in order: a line with its START
                            and a number of bytes, and so many bytes of the file as they are, and
                            a line end. The number is 0 where END is at or before START, and
                            what lies past the file's end is cut off
    LONG I                  range I, counted from 0, is the first whose END is more than 1048576
                            past its START
    NONE                    a range that is not empty is of a file that the store does not have
    BYE                     to QUIT
    BAD                     to any other line
    OVER                    the line is longer than 1024 bytes, and no later one is answered

input of track:
  A script on standard input, of at most 67108864 bytes: a call of a new tracker of uploads on
  each line, with one space between its words. N and ID are numbers as START is, and NAME is one
  below 4294967296. The line for each call is printed:
    file N                  a new file of N bytes: its ID, counted from 0
    file ?                  a new file that grows: its ID
    grow ID N               such a file has N bytes more: ok
    xorb NAME N             a xorb of N bytes: true where it is new, false where it is there
    dep ID NAME N           N bytes of the file come with the xorb's upload: ok
    ext ID NAME N           N bytes of the file were uploaded before: ok
    progress NAME N         N bytes more of the xorb were sent: ok
    background NAME N       the same
    done NAME               the xorb was uploaded: ok
    status                  the completed bytes of all files, and their total
    complete                true where these two sums are equal, or false
  A call that is refused changes nothing and prints refused K, where K is 6 for an unknown file,
  7 for an unknown xorb, 8 for another size, 9 past a total, 10 where the xorb is completed, and
  11 where a sum has no room.

file of bench:
  It is in a store of 8 xorbs of 16 chunks each, which is made and not read. All is counted from
  0: chunk J of xorb I has number C = 16 * I + J, it has 1 + C mod 64 bytes, and its byte P is
  C + P. Term K of the file is of xorb K mod 8, from chunk K mod 13 on, and of 1 + K mod 3
  chunks. Four lines are printed, the same for all options: terms and N, bytes and their number,
  sum and the sum of the bytes, sha256 and the SHA-256 of the bytes.

file of roundtrip:
  Byte P, counted from 0, is P mod 251. It is uploaded to a store in memory, in chunks of 1000
  bytes, and downloaded by the text of its pointer record, which is printed, and then ok N: the
  bytes are the same.

output:
  For get the bytes as lower-case hexadecimal digits, a line end, and a last line. The lines of
  1, 2, 4 and 8 stand alone, but that of 2 for track, which ends the lines of a script that does
  not read; those of 3 and 9 for mirror and resume and that of 7 for bench and serve stand alone
  too. With 0 track, bench and roundtrip print their lines alone, compact, mirror and resume too,
  audit with 0 and 10, and serve with 0 and 11. All lines, those of errors too, go to standard
  output. For the bytes themselves turn the digits of the first line of get back, as with
  | head -n 1 | xxd -r -p.

last line, and exit status:
  ok N                    0  all N bytes of the range were printed, or came back, or were fetched
  error words             1  the words do not read; nothing was read of the input
  error store             2  the input is no document of a valid store; for audit, of any; for serve,
                             its first line; for mirror, it has no two such stores that agree, or
                             no list of files
  error hash H            2  lists of chunks that differ would stand under the hash H in what
                             compact leaves; for mirror with verify, the target would get the xorb
                             H, whose hash is not that of its chunks
  error script            2  a line of the script does not read, and no later one was run
  error file not found    3  the range is not empty, and the store has no such file; for resume, one
                             of the ranges, cut at LENGTH
  missing H               3  neither store has the listed file H
  error read              4  standard input failed
  (none)                  5  standard output failed
  error memory            6  an allocation was refused
  error settings K        7  K is 1 for lanes=0, 3 for least=0, 4 for a greatest below the least;
                             nothing was fetched
  error input             8  the input is longer than the limit
  error short N           9  the file has N bytes of a part that resume is to fetch, not all
  bad N                  10  N things are wrong with the store
  OVER                   11  a line of a session is longer than 1024 bytes
  After 5 and 6 the digits may be cut short, and lines may be missing. After 6 in a session nothing
  more is printed.

example, with the store in the file hello.json:
  xet_tool get aaaaaaaaaaaaaaaaaaaaaaaaaaaaaaaaaaaaaaaaaaaaaaaaaaaaaaaaaaaaaaaa 3 9 <hello.json
prints, where the bytes 3 to 8 are \"lo, wo\",
  6c6f2c20776f
  ok 6

examples of the options, after the words of that one:
  lanes=4 cache                     over four connections, with a cache
  least=4 greatest=8                in plans of few bytes, of less than 12
  budget=0                          a term at a time
  budget=1000 perfile=500 limit=1200
                                    with 1200 bytes at most that are not written
  multi vectored                    whole fetch entries, and several pieces a write

example of resume, with the same store:
  xet_tool resume aaaaaaaaaaaaaaaaaaaaaaaaaaaaaaaaaaaaaaaaaaaaaaaaaaaaaaaaaaaaaaaa 13 9 13 0 5 \\
    <hello.json
prints, where the bytes 5 to 8 are still missing,
  48656c6c6f00000000726c6421
  xet-gaps 1
  aaaaaaaaaaaaaaaaaaaaaaaaaaaaaaaaaaaaaaaaaaaaaaaaaaaaaaaaaaaaaaaa 13
  5 9
  ok 9

example of serve: with that store on the first line of the input, the session
  GET aaaaaaaaaaaaaaaaaaaaaaaaaaaaaaaaaaaaaaaaaaaaaaaaaaaaaaaaaaaaaaaa 0-5,7-9
  QUIT
prints
  OK 2
  0 5
  Hello
  7 2
  wo
  BYE

example of bench:
  xet_tool bench 3 lanes=4
prints
  terms 3
  bytes 146
  sum 6645
  sha256 a12c2c5b9d867a31924c6963eb531c2b58ca2f37b2eb5ceb6b23a9c70d97172f
";

/// What `--version` prints.
pub const VERSION: &[u8] = b"xet_tool 0.1.0\n";
