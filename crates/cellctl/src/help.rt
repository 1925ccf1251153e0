//! What help says of scripts, of stores and of frames.

/// The version of the program.
pub(crate) const VERSION: &str = "0.2.0";

/// The steps of a script, its limits, and how the program ends.
pub(crate) const SCRIPTS: &str = "\
Steps, one a line, with one space between two words; blank lines and lines that begin with # are skipped:
  up M              a master comes up, its clock at M milliseconds
  down              the master is gone; the rows stay
  cut sweep kept|lost
                    one sweep in a crash: what it commits stands or is lost, nothing is sent, and the master is gone
  cut up M kept|lost
                    the same of a master that comes up
  tick DM DK [C:DK]...
                    the master's clock moves by DM, that of client C by its own DK, those of all other clients by the first
  join C PRINCIPAL  client C joins and acts for the principal
  ask C CALL        client C is asked for a call
  beat C            client C sends a Start until it has a session, and then a Beat, which keeps it
  take I            message I comes to the master
  give I            message I comes to its client
  sweep             one sweep of the master
  beats             the master answers one Beat, of a session whose time isn't up, and commits nothing
  settle            messages that never came are taken and given, and the master sweeps, until nothing is left

Calls; H is the client's own handle number, 1, 2, .. in the order in which its Opens succeed:
  open NAME MODE    opens the node of this name; MODE is some letters of rwc, in this order
  open NAME MODE may|must file permanent|ephemeral CONTENT [acl R W C]
                    the same, and makes a file where there is none; must is refused where there is one;
                    an ephemeral one goes once nobody holds it open
  open NAME MODE may|must dir permanent|ephemeral [acl R W C]
                    the same with a directory, which goes once it is empty too
  open .. delay N   each of these, with a handle of a lock-delay of N milliseconds
  open .. events E  each of these, with a handle whose client is told of events; E is some letters of mdlx, in this order
  close H           closes the handle
  poison H          every later call on the handle but close is refused
  read H            the content and the numbers of the node
  stat H            its numbers
  list H            the names of a directory's children; in version 2 the cache may answer it, like a read
  set H CONTENT [G] a new content; with G only at this content generation
  acl H R W C [G]   new ACL names; with G only at this ACL generation
  delete H          deletes the node
  acquire H x|s     waits for the node's lock: x alone, s beside others that share it
  try H x|s         takes the lock, or is refused
  release H         lets the lock go
  getseq H          the sequencer of the lock that the handle holds
  setseq H HEX      calls on the handle stand under this sequencer from then on
  checkseq HEX      whether this sequencer is valid
  leave             ends the session: the client keeps nothing more and asks for nothing more
CONTENT is hexadecimal in lower case, - for empty, or fill:N:HH for N times one byte.

Limits:
  a script          1,000,000 lines, 2^30 reads
  a line            1,048,576 bytes without its end
  a number          2^64-1; of a client 1 to 2^53-1
  a name            512 bytes; each component, and a principal, 64
  a content         262,144 bytes; N of fill at most 300,000
  a lock-delay      60,000 milliseconds
  changes that wait 4,096
  a moment          below 2^53 milliseconds

Exit status:
  0                 the script ran to its end; a refused step is a line like others
  1                 a bad step, behind which nothing is done; or the output can't be written
  2                 a wrong command line, a script that can't be opened, or settings that aren't any
  3                 the store can't be opened or closed, is another cell's, or holds no rows of a cell
  4                 memory ran out outside a step
Behind each but 0 the standard error says what is wrong, and what cures it. Of a refused step it tells the line.

The store is a SQLite file. Where it isn't there, or has no table, a new store is made in it; one of version 1 or 2 is made
one of version 3; else its rows are taken as they are. Nobody else may write it meanwhile. Behind the script it is closed:
the rows stand in that one file. What a step printed is written before the next line is begun. Where a run is killed, the log
beside the file (FILE-wal) is a part of the store. A file that is made is for its owner alone.

With --trace a line on standard error tells of each message that is sent: its number, from whom to whom, and its kind:
  message 9 client 1 -> master Call read
  message 10 master -> client 1 Reply
A message to the master is a Start, a Beat or a Call with its word; one to a client is Started, Alive, Reply or Refused. These
are the numbers of take and give. A settle tells of its messages when it ends.

Settings are a table in TOML. A key that isn't there has its value here:
  cell       = \"c\"               a component
  lease      = 12000             milliseconds, 1000 to 60000
  principals = [\"ann\", \"bob\"]  those of the ACL file acl/base, a line each, 262,144 bytes at most
  secret     = \"00..\"            64 hexadecimal digits in lower case; zeros where it isn't there
  limits     = {max_nodes = N, max_bytes = N, max_locks = N}
                                 what the cell holds at most: nodes, bytes of all contents, locks that one session holds or
                                 waits for; a number that isn't there is no limit
cellctl new-settings FILE writes such a file with a random secret.";

/// What a test of a store prints, and how it ends.
pub(crate) const STORES: &str = "\
On standard output stands one of
  sound epoch E nodes N sessions S locks L
                          the store is sound; S counts the live sessions
  refused 16 StoreDamaged it isn't that of this cell, its rows break a rule, or it isn't there
  refused 15 StoreRefused it can't be read
The cell is c, or that of the settings. Nothing is written to the store. Where FILE is a link, that is what it leads to.

Exit status:
  0                 the store is sound
  1                 the output can't be written
  2                 a wrong command line, or settings that aren't any
  3                 it is refused
  4                 memory ran out";

/// The frames by which a program hosts a master, and a first exchange.
pub(crate) const FRAMES: &str = "\
Frames on standard input, and what is told of each on standard output, with nothing between them. A frame is the number of
its bytes in four, big-endian, and then 02, a byte for its kind, and its fields. Moments are the caller's, eight bytes in
milliseconds. On standard input, 1,048,576 bytes at most:
  00 MOMENT         a master comes up
  01 MOMENT MESSAGE a message of a client comes to it, all its bytes
  02 MOMENT         the master does what there is to do
  03                the master is gone; the end of the input does the same
On standard output, to each frame in its turn:
  00 LINE           a line, all its bytes
  01 CLIENT MESSAGE a message, and the client that it is for, in eight bytes
  02 FAULT          this was no frame: 00 no memory, 01 too long, 02 cut off, 03 bytes behind it, 04 another version,
                    05 no such kind, 06 a number out of its range, 07 not a name; nothing has changed
  03 00             all that is told of the frame stands before, and there is nothing to do at any moment
  03 01 MOMENT      the same, and from this moment on there is something to do, and not before
All that is told is committed before, and written before more is read. docs/FORMATS.md has the bytes of both.

A first exchange: a master comes up at moment 1000, and client 1 begins a session for ann.
  to    0000000a0200 00000000000003e8
  from  0000000c0200 0200 0000000000000001                                      up 1
        00000003020300
  to    000000230201 00000000000003e8 0200 0000000000000001 0000000000000001 00000003 616e6e
  from  0000000c0200 0203 0000000000000001                                      started 1
        0000002c0201 0000000000000001 0200 0000000000000001 0000000000000001 0000000000000001 0000000000002ee0
        0000000b020301 00000000000032c8                                       next at 13,000

Exit status:
  0                 the end of the input was reached
  1                 the input can't be read, or the output can't be written
  2                 a wrong command line, or settings that aren't any
  3                 the store can't be opened or closed, or holds no rows of a cell
  4                 memory ran out";
