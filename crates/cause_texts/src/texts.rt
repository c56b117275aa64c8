// What each cause means, with an example, and what to do about it. check/documents.py --causes makes this file of docs/FORMATS.md.
//
// A text says where its cause comes, what it means and what to do, in lines of at most 80 columns. A word with several meanings has them in the
// order of docs/FORMATS.md, with an empty line between.

pub const ADDRESS: &str = "\
Address, where icemulti joins images:
  Message: Address i
  Image i is the first that would stand at 2^24 or later. An address has three
  bytes.
  Example:
    $ ./icestorm icemulti -a 24 one.bin one.bin
    icemulti: Address 1
  What to do:
    Give a smaller alignment, or fewer or shorter images.

Address, in a boot file that icesplit reads:
  Message: Address h
  Header h is the first of the headers 1 to 4 whose address is below 160, or not
  below the length of the file.
  Example:
    $ head -c 32500 both.boot | ./icestorm icesplit /dev/stdin
    icesplit: Address 2
  What to do:
    Take the whole file, from the first header to the end of the last image.
    Addresses count from the start of the file.
";

pub const ALIGN: &str = "\
Align, where icemulti joins images:
  Message: Align n
  The alignment n of -a or -A is above 24.
  Example:
    $ ./icestorm icemulti -a 25 one.bin one.bin
    icemulti: Align 25
  What to do:
    Give at most 24. Images stand at multiples of 2^n bytes, so 16 means 64 KiB.
";

pub const ASSIGNED_TWICE: &str = "\
AssignedTwice, in a module that vlogrun or vlogsweep runs:
  The name is declared or assigned a second time. The offset is that of the
  name. Of two equal names in PORTS the second has it, if the header has no
  Syntax fault.
  Example:
    1 | module m (a, y);
    2 |   input a;
    3 |   output y;
    4 |   assign y = a;
    5 |   assign y = a;
    6 | endmodule
    vlogrun: offset 65: AssignedTwice
  What to do:
    Take one of the two out, or rename it: a name is declared once, and assigned
    in one item.
";

pub const BAD_BANK: &str = "\
BadBank, in a bitstream (.bin):
  The bank is above 3. The offset is that of the command.
  Example, bytes in hexadecimal:
    7E AA 99 7E 11 04
    iceunpack: offset 4: BadBank
  What to do:
    Pack the bitstream anew. Banks are 0 to 3.
";

pub const BAD_HEIGHT: &str = "\
BadHeight, in a bitstream (.bin):
  The data have no row, go past the plane's last row, or end within a byte. The
  offset is that of the command.
  Example, bytes in hexadecimal:
    7E AA 99 7E 62 01 4B 01 01
    iceunpack: offset 7: BadHeight
  What to do:
    Pack the bitstream anew, or correct the height and the offset before the
    data. Width times height bits have to be whole bytes.
";

pub const BAD_MODE: &str = "\
BadMode, in a bitstream (.bin):
  The mode isn't 0, 1, 32 or 33. The offset is that of the command.
  Example, bytes in hexadecimal:
    7E AA 99 7E 92 00 10
    iceunpack: offset 4: BadMode
  What to do:
    If the file is a boot file, take its images out with icesplit -x. Otherwise
    pack the bitstream anew. The modes are 0, and 32 for warm boot; 1 more keeps
    the flash awake.
";

pub const BAD_RANGE: &str = "\
BadRange, in a bitstream (.bin):
  The oscillator's range is above 2. The offset is that of the command.
  Example, bytes in hexadecimal:
    7E AA 99 7E 51 03
    iceunpack: offset 4: BadRange
  What to do:
    Pack the bitstream anew. Ranges are 0 (low), 1 (medium) and 2 (high).
";

pub const BAD_WIDTH: &str = "\
BadWidth, in a bitstream (.bin):
  No device has planes of that kind and width, or this device hasn't, or the
  data are RAM data of an LP384. The offset is that of the command.
  Example, bytes in hexadecimal:
    7E AA 99 7E 01 01
    iceunpack: offset 4: BadWidth
  What to do:
    Check for which device the bitstream is: the width is 182 for an LP384, 332
    or 64 (RAM) for an HX1K, 872 or 128 (RAM) for an HX8K. No other device is
    taken.
";

pub const BIT_NAME: &str = "\
BitName, in a chip database:
  A bit isn't written as B7[12], or one of its numbers has ten digits or more.
  Example:
    1 | .device 1k 14 18 5
    2 | .routing 1 1 1 B2(0)
    icebox_explain: database line 2: BitName
  What to do:
    Write B, the row, and the column in square brackets.
";

pub const BIT_RANGE: &str = "\
BitRange, in a chip database:
  A row is above 15 or a column outside of the tile; for an extra bit, a bank is
  above 3 or a place outside of the planes.
  Example:
    1 | .device 1k 14 18 5
    2 | .routing 1 1 1 B16[0]
    icebox_explain: database line 2: BitRange
  What to do:
    Correct the bit. Columns are 0 to 17 (io), 0 to 53 (logic) or 0 to 41 (RAM).
";

pub const CASCADE: &str = "\
Cascade, in a design (icebox_vlog, icebox_stat, icebox_plan):
  Message: tile X Y: Cascade
  A function whose name begins with RamCascade. is on in one of the two tiles of
  a block RAM that is read: the RAM passes its address on to the next one.
  Example, a block RAM that is read and passes its address on:
    $ ./icestorm icebox_vlog ram.chipdb ram.asc
    icebox_vlog: tile 3 1: Cascade
  What to do:
    Use single block RAMs.
";

pub const CELL_BITS: &str = "\
CellBits, in a chip database:
  One of LC_0 to LC_7 of a logic tile has another number of bits than 20, or a
  line has more than 64 bits.
  Example:
    1 | .device 1k 14 18 5
    2 | .logic_tile_bits 54 16
    3 | LC_0 B0[36] B0[37]
    icebox_explain: database line 3: CellBits
  What to do:
    Give a logic cell its twenty bits: sixteen of its table, and four for carry,
    flip-flop, set and asynchronous.
";

pub const CHECK: &str = "\
Check, in a bitstream (.bin):
  Message: Check VALUE
  The check value isn't 0 after the check. VALUE is what it is, in four
  hexadecimal digits. The offset is that of the command.
  Example, bytes in hexadecimal:
    7E AA 99 7E 01 05 22 00 00
    iceunpack: offset 6: Check 243a
  What to do:
    Pack the bitstream anew: a byte between the last reset and the check is
    wrong. To change a bit, unpack the bitstream, change the text and pack that.
";

pub const CLOCK: &str = "\
Clock, in a design (icebox_vlog):
  Messages:
    tile X Y cell I: Clock net N
    tile X Y input P: Clock net N
    tile X Y output P: Clock net N
    tile X Y read: Clock net N
    tile X Y write: Clock net N
  The clock of the flip-flop of cell I, of the register of pin P, or of the read
  or the write port of a block RAM comes from logic, as a gated clock does. N is
  the net of the clock. A clock may come from an input pin, or be always the
  same bit; with --all-pins it may also come from an output of a PLL, and with
  --register-clocks from a flip-flop, or from an input register of a pin. On its
  way it goes through buffers, through global networks, and through LUTs that
  pass one net on or invert it. Clocks that come from a carry, a block RAM or
  the pad of an output come from logic, and so do, without --register-clocks,
  clocks from a register.
  Example, a ripple counter, whose second flip-flop has the first one as its
  clock, without --register-clocks:
    $ ./icestorm icebox_vlog ripple.chipdb ripple.asc
    icebox_vlog: tile 2 1 cell 0: Clock net 7
  What to do:
    If a register makes the clock, as in a divider, give --register-clocks. If a
    gate does, clock the flip-flop by the pin, and put the logic into its
    enable.
";

pub const COMMENT_BYTE: &str = "\
CommentByte, in a text (.asc):
  A line of a comment has a byte below 0x20 or above 0x7E, such as a tab or a
  letter that isn't ASCII.
  Example:
    1 | .comment
    2 | a\\tb
    icepack: line 2: CommentByte
  What to do:
    Take the byte out, or write a space in its place.
";

pub const COORDINATES: &str = "\
Coordinates, in a text (.asc):
  No tile stands at X and Y: that is a corner of the grid, or outside of it.
  Example:
    1 | .device 1k
    2 | .logic_tile 0 0
    icepack: line 2: tile 0 0: Coordinates
  What to do:
    Correct X and Y, which count from 0: the grid of a 384 has 8 columns and 10
    rows, that of a 1k 14 and 18, that of an 8k 34 and 34. Or the text is for
    another device than it names.
";

pub const DATA_END: &str = "\
DataEnd, in a bitstream (.bin):
  One of the two bytes after data isn't 00. The offset is that of the first such
  byte.
  Example, bytes in hexadecimal:
    7E AA 99 7E 62 00 3F 71 01 01 03 FF FF FF FF FF FF FF FF 05
    iceunpack: offset 19: DataEnd
  What to do:
    Pack the bitstream anew, or correct the width and the height before the
    data: the data have another length.
";

pub const DEPTH: &str = "\
Depth, in a file of words that icebram reads:
  Message: from: Depth
  The number of words is 0 or no multiple of 256.
  Example:
    1 | 2f
    2 | 30
    icebram: from: Depth
  What to do:
    Add words up to the next multiple of 256: zeros to TO, random ones to FROM.
";

pub const DEVICE: &str = "\
Device, in a text (.asc):
  The device isn't 384, 1k or 8k, even if one was named before.
  Example:
    1 | .device 5k
    icepack: line 1: Device
  What to do:
    Write 384 for an LP384, 1k for an HX1K, or 8k for an HX8K. The tools take no
    other device.

Device, in a layout file:
  The device of the section isn't 384, 1k or 8k.
  Example:
    1 | .layout 5k
    icepack: layout line 1: Device
  What to do:
    Write .layout 384, .layout 1k or .layout 8k.

Device, of the two images that icebox_diff compares:
  The database is for another device than A.
  Example, the database of a 1k and two images of an 8k:
    $ ./icestorm icebox_diff empty.chipdb large.asc large.asc
    icebox_diff: Device
  What to do:
    Take the database of the images' device: chipdb-1k.txt or chipdb-8k.txt.
    Images of an LP384 aren't compared.

Device, in a chip database:
  It is a second .device, or one with another name or size, too many nets, or
  other words.
  Example:
    1 | .device 5k 26 32 5
    icebox_explain: database line 1: Device
  What to do:
    Take the database of a 1k or an 8k. No other device is taken. A text (.asc)
    has this cause too: the database comes first, then the image.

Device, in a design (icebox_vlog, icebox_stat, icebox_plan, icebox_explain):
  The database is for another device than the image.
  Example, the database of a 1k and an image of an 8k:
    $ ./icestorm icebox_vlog small.chipdb examples/lights_8k/lights.asc
    icebox_vlog: Device
  What to do:
    Take the database of the image's device: chipdb-1k.txt or chipdb-8k.txt.
    That of an LP384 isn't taken.
";

pub const DIGIT: &str = "\
Digit, in a file of words that icebram reads:
  Message: from line N: Digit
  The line has something else than words of hexadecimal digits.
  Example:
    1 | 2f
    2 | @100
    3 | 30
    icebram: from line 2: Digit
  What to do:
    Take it out. Addresses such as @100, the digits x and z, the prefix 0x, and
    comments from /* to */ aren't taken.
";

pub const EXTRA_PLACE: &str = "\
ExtraPlace, in a text (.asc):
  The place of the extra bit is outside of the planes, or is that of a tile's
  bit.
  Example:
    1 | .device 1k
    2 | .extra_bit 0 18 16
    icepack: line 2: ExtraPlace
  What to do:
    Write a tile's bit in the rows of the tile. Which places are free depends on
    the layout: give the layout file under which the text was unpacked.
";

pub const FORM: &str = "\
Form, in a list of events of vlogrun or vlogsweep:
  The line isn't a name, one space, and 0 or 1; with --long it isn't NAME ~ N,
  repeat N or end either, or N isn't from 1 to 4294967295. Blanks at its end
  don't count. A name is a letter or _, followed by letters, digits and _.
  Example, an equals sign in place of the space:
    $ printf 'a 1\\na=0\\n' | ./icestorm vlogrun m.v
    vlogrun: line 2: Form
  What to do:
    Write NAME 0 or NAME 1, or with --long also NAME ~ N, with one space on each
    side of ~. Begin no line with a blank, also between repeat and end. There
    are no comments, and no values such as x. Give an input that is named repeat
    another name.

Form, in a list of names for wires:
  The line isn't the name of a wire, blanks, and a name of printable ASCII
  characters.
  Example:
    1 | n_2 lamp off
    vlogrun: names line 1: Form
  What to do:
    Write WIRE NAME. There are no comments, and a name has no blank in it.
";

pub const HEADER: &str = "\
header, in a boot file that icesplit reads:
  Message: header h: offset n
  The byte at the offset n is none that a header has there. It is the first such
  byte, and h is the number of its header, from 0.
  Example, a single bitstream in place of a boot file:
    $ ./icestorm icesplit one.bin
    icesplit: header 0: offset 4
  What to do:
    Check that the file is a boot file, and begins with the first header. If it
    is a single bitstream, give it to iceunpack.
";

pub const HEX: &str = "\
Hex, in a text (.asc):
  A line of the RAM's contents is missing, or it isn't 64 hexadecimal digits.
  Example:
    1 | .device 1k
    2 | .ram_data 3 1
    3 | xyz
    icepack: line 3: tile 3 1: Hex
  What to do:
    Give the RAM sixteen such lines, directly below its statement. An empty line
    there counts as one of them.
";

pub const IMAGE: &str = "\
image, in a boot file that icesplit reads:
  Message: image i: offset n: CAUSE
  Image i is the first that is no bitstream. CAUSE is the cause of a bitstream,
  and n its offset in the boot file.
  Example:
    $ head -c 40000 both.boot | ./icestorm icesplit /dev/stdin
    icesplit: image 1: offset 40000: Truncated
  What to do:
    Look up that cause. Pack the image and join the images anew, or copy the
    whole file again.
";

pub const IMAGES: &str = "\
Images, of the two images that icebox_diff compares:
  B is for another device than A.
  Example, an image of a 1k and one of an 8k:
    $ ./icestorm icebox_diff empty.chipdb examples/one_bit.asc large.asc
    icebox_diff: Images
  What to do:
    Give two images of one device. The line .device of a text names it, and
    iceunpack makes a text of a bitstream.
";

pub const KIND: &str = "\
Kind, in a text (.asc):
  Message: Kind expected KIND
  A tile of another kind stands there. KIND is the kind that is there: io,
  logic, ramb or ramt. .ram_data belongs to a ramb.
  Example:
    1 | .device 1k
    2 | .logic_tile 3 1
    icepack: line 2: tile 3 1: Kind expected ramb
  What to do:
    Write the statement of that kind, or correct X and Y. Or the text is for
    another device than it names.
";

pub const LONG: &str = "\
Long, in a list of events of vlogrun or vlogsweep:
  With --long: no line is faulty, but the list stands for 2^64 - 1 events or
  more, or what vlogrun writes may have 2^64 bytes or more. No line is told.
  Example, a list in which an input gets the other bit 4294967295 times
  4294967295 times:
    $ ./icestorm vlogrun --long m.v m.endless
    vlogrun: Long
  What to do:
    Take lower counts. If it is only the lines of vlogrun that are too many,
    --last is enough.
";

pub const LONG_PAYLOAD: &str = "\
LongPayload, in a bitstream (.bin):
  The command has more than four bytes of payload. The offset is that of the
  command.
  Example, bytes in hexadecimal:
    7E AA 99 7E 05 00 00 00 00 01
    iceunpack: offset 4: LongPayload
  What to do:
    Pack the bitstream anew: a byte there or before it is wrong or missing.
";

pub const LOOP: &str = "\
Loop, in a design (icebox_vlog):
  Message: net N: Loop
  A combinational loop: net N depends on itself, and no clock edge lies between.
  A flip-flop that is reset at once depends on its reset, so one that resets
  itself at once is a loop too. With --register-clocks there are loops by clocks
  as well, such as a register that is its own clock; they count only if there is
  no other loop.
  Example, an inverter whose input is its own output:
    $ ./icestorm icebox_vlog small.chipdb ring.asc
    icebox_vlog: net 1: Loop
  What to do:
    Give --used-inputs, if it isn't given: a router may make a loop at an input
    that a cell's table doesn't use. Any other loop has to be taken out of the
    design. A latch is a loop too, such as that of an always @* that doesn't
    assign a value in each case. A flip-flop that ends its own pulse needs a
    reset at the clock edge.
";

pub const NAME_TWICE: &str = "\
NameTwice, in a chip database:
  An earlier line gives the same name in the same tile.
  Example:
    1 | .device 1k 14 18 5
    2 | .net 0
    3 | 1 1 a
    4 | .net 1
    5 | 1 1 a
    icebox_explain: database line 5: NameTwice
  What to do:
    Take one of the two lines out: in a tile a name belongs to one net.

NameTwice, in a list of names for wires:
  An earlier line gives this name, or the module declares it: a port, a
  register, a memory or a wire has it.
  Example:
    1 | n_2 lamp
    2 | n_3 lamp
    vlogrun: names line 2: NameTwice
  What to do:
    Give the wire another name.
";

pub const NET_RANGE: &str = "\
NetRange, in a chip database:
  A net isn't below NETS.
  Example:
    1 | .device 1k 14 18 5
    2 | .net 5
    icebox_explain: database line 2: NetRange
  What to do:
    Correct the net, or NETS in .device. Nets count from 0.
";

pub const NET_TWICE: &str = "\
NetTwice, in a chip database:
  An earlier .net has the same number.
  Example:
    1 | .device 1k 14 18 5
    2 | .net 0
    3 | 1 1 lutff_0/out
    4 | .net 0
    icebox_explain: database line 4: NetTwice
  What to do:
    Put all names of a net below one .net.
";

pub const NO_DEVICE: &str = "\
NoDevice, in a text (.asc):
  The text ends, and no device was named; or a tile, a RAM or an extra bit comes
  before a device was named.
  Example:
    1 | .logic_tile 1 1
    icepack: line 1: tile 1 1: NoDevice
  What to do:
    Name the device before the first tile, RAM and extra bit: .device 384,
    .device 1k or .device 8k.

NoDevice, in a bitstream (.bin):
  A wake-up comes before configuration data reached the last row of a plane, in
  any bank. The offset is that of the command.
  Example, bytes in hexadecimal:
    7E AA 99 7E 01 05 51 01 22 92 73 01 06
    iceunpack: offset 11: NoDevice
  What to do:
    Pack the bitstream anew: its configuration data are missing before the
    wake-up, or end early.

NoDevice, in a chip database:
  A statement comes before .device, or there is no .device. Only .extra_cell,
  and statements that are skipped, may come before it.
  Example:
    1 | .net 0
    2 | 1 1 lutff_0/out
    icebox_explain: database line 1: NoDevice
  What to do:
    Check that the file is a chip database. .device comes first.
";

pub const NO_IMAGE: &str = "\
NoImage, where icemulti joins images:
  No image is named.
  Example:
    $ ./icestorm icemulti
    icemulti: NoImage
  What to do:
    Name one to four bitstreams.

NoImage, in a boot file that icesplit reads:
  Message: NoImage n
  -x n asks for an image that isn't there.
  Example, the third of two images:
    $ ./icestorm icesplit -x 2 both.boot
    icesplit: NoImage 2
  What to do:
    Run icesplit without -x, which lists the images. They count from 0, and
    headers with one address name one image.
";

pub const NO_PREAMBLE: &str = "\
NoPreamble, in a bitstream (.bin):
  The preamble 7E AA 99 7E is nowhere in the input. The offset is the length of
  the input.
  Example, bytes in hexadecimal:
    00 11 22
    iceunpack: offset 3: NoPreamble
  What to do:
    Check that the file is a bitstream, and isn't compressed. Pack a text (.asc)
    with icepack first.
";

pub const NO_TILE: &str = "\
NoTile, of the option -t of icebox_explain:
  Message: tile X Y: NoTile
  No tile stands at X and Y: that is a corner of the grid, or outside of it.
  Example, the left bottom corner:
    $ ./icestorm icebox_explain -t \"0 0\" empty.chipdb examples/one_bit.asc
    icebox_explain: tile 0 0: NoTile
  What to do:
    Correct X and Y: the column from the left and the row from the bottom, both
    from 0. The corners of the grid have no tile.
";

pub const NUMBER: &str = "\
Number, in a chip database:
  The number of words is wrong, a link has no bit, a word that should be a
  number isn't one, GLB is above 7, PIO is above 1, or a net's name is outside
  of the grid.
  Example:
    1 | .device 1k 14 18 5
    2 | .net 0
    3 | 1 1
    icebox_explain: database line 3: Number
  What to do:
    Correct the line. A number has one to nine decimal digits.
";

pub const ORDER: &str = "\
Order, in a module that vlogrun or vlogsweep runs:
  The item stands below an item of a later section. The offset is that of the
  first token of the item.
  Example:
    1 | module m (a, y);
    2 |   input a;
    3 |   output y;
    4 |   assign y = a;
    5 |   wire n = a;
    6 | endmodule
    vlogrun: offset 58: Order
  What to do:
    Move the item up. The sections are: ports, registers of a bit, registers of
    a word, memories, wires, assign, flip-flops, reads, writes, start words.
";

pub const PACKAGE: &str = "\
Package, in a pin file (.pcf):
  The database doesn't have the package of -d. This is told only at a line with
  set_io.
  Example, one that the database doesn't have:
    $ ./icestorm icebox_vlog -p led.pcf -d tq144 small.chipdb inverter.asc
    icebox_vlog: pin file line 1: Package
  What to do:
    Give -d a package of the device, such as tq144 of a 1k or ct256 of an 8k:
    the database has them as .pins PACKAGE.
";

pub const PIN: &str = "\
Pin, in a list of events of vlogrun or vlogsweep:
  The name is no input of the module. A reserved word is none either.
  Example, an output of the module:
    $ printf 'a 1\\ny 0\\n' | ./icestorm vlogrun m.v
    vlogrun: line 2: Pin
  What to do:
    Take a name that the module declares as input: io_X_Y_N for a pin, or the
    name that the pin file of -p gives it.

Pin, in a pin file (.pcf):
  The package doesn't have the pin.
  Example:
    1 | set_io led A2
    2 | set_io button A3
    icebox_vlog: pin file line 2: Pin
  What to do:
    Correct the pin, or the package of -d. The lines below .pins PACKAGE of the
    database begin with its pins.
";

pub const PIN_MODE: &str = "\
PinMode, in a design (icebox_vlog, icebox_stat, icebox_plan):
  Message: tile X Y pin N: PinMode BITS
  The type of a pin isn't taken, or the way in which the design uses the pin.
  BITS are the six bits of its type, PIN_TYPE of SB_IO, the highest first.
  Example, a bus, whose pin is read and can be switched off, without --all-pins:
    $ ./icestorm icebox_vlog bus.chipdb bus.asc
    icebox_vlog: tile 0 1 pin 0: PinMode 101001
  What to do:
    Give --all-pins, if it isn't given. With --all-pins there are four cases.
    BITS tell them apart, but for what is on in the tile:
    - The last bit but one is 1, and the design uses D_IN_0 of the pin: a latch
      may hold D_IN_0. Make that bit 0.
    - The first two bits aren't 00, and icebox_explain shows padin_glb_netwk of
      the global net whose pad it is: the pin drives the pad from which a global
      net comes, as SB_GB_IO has it if it is an output too. Take SB_IO, and
      SB_GB for the global net.
    - The pin is at the place of an output of a PLL, the last two bits aren't
      01, and the design uses D_IN_0, or it uses D_IN_1 there: the output of the
      PLL comes in at D_IN_0, as it is. Make the last two bits 01, and don't use
      D_IN_1.
    - icebox_explain -t \"X Y\" shows IoCtrl.LVDS: the tile has a pair of pins,
      and the pin isn't pin 0 as an input. Keep outputs of pairs, and other pins
      of such a tile, out of the design.
";

pub const PLACE: &str = "\
Place, in a layout file:
  sidecols doesn't have each of 0 to 17, iorows not each of 0 to 15, banks not
  each of 0 to 3, or iocols has a number twice or one above 41.
  Example:
    1 | .layout 1k
    2 | banks 0 1 2 2
    icepack: layout line 2: Place
  What to do:
    Correct the numbers: no two bits may have one place.
";

pub const PLL: &str = "\
Pll, in a design (icebox_vlog, icebox_stat, icebox_plan):
  Message: tile X Y: Pll
  The design uses a PLL that isn't taken.
  Example, a flip-flop that a PLL clocks, without --all-pins:
    $ ./icestorm icebox_vlog pll.chipdb pll.asc
    icebox_vlog: tile 0 2: Pll
  What to do:
    Give --all-pins, if it isn't given. With it, take a database that describes
    the PLL: chipdb-1k.txt or chipdb-8k.txt.
";

pub const POWER_ON: &str = "\
PowerOn, where icemulti joins images:
  Message: PowerOn i
  There is no image i, which -p asks for.
  Example:
    $ ./icestorm icemulti -p 2 one.bin one.bin
    icemulti: PowerOn 2
  What to do:
    Give -p the number of an image. They count from 0.

PowerOn, in a boot file that icesplit reads:
  No other header has the address of header 0.
  Example, another byte in the address of header 0:
    $ ./icestorm icesplit moved.boot
    icesplit: PowerOn
  What to do:
    Join the images anew with icemulti. Header 0 has the address of the image
    for power-on.
";

pub const REPEAT: &str = "\
Repeat, in a list of events of vlogrun or vlogsweep:
  With --long: the line is an end without a repeat, or a repeat inside eight
  others. If no line is faulty, it is the outermost repeat without an end.
  Example, an end too many:
    $ printf 'repeat 2\\na ~ 1\\nend\\nend\\n' | ./icestorm vlogrun --long m.v
    vlogrun: line 4: Repeat
  What to do:
    Give each repeat its end, and put at most eight inside one another.
";

pub const REPEATED: &str = "\
Repeated, in a text (.asc):
  The tile, the RAM, the device or the setting was given before, even if the
  value is none of the known ones.
  Example:
    1 | .device 1k
    2 | .device 8k
    icepack: line 2: Repeated
  What to do:
    Take one of the two out. A tile has one statement, with all its bits below.

Repeated, in a layout file:
  It is the second section of a device, or the second line of one kind in a
  section.
  Example:
    1 | .layout 1k
    2 |
    3 | .layout 1k
    icepack: layout line 3: Repeated
  What to do:
    Take one of the two out.
";

pub const ROW: &str = "\
Row, in a text (.asc):
  A row of the tile is missing, or it isn't one 0 or 1 for each column of the
  tile: 18 (io), 54 (logic) or 42 (RAM).
  Example:
    1 | .device 1k
    2 | .io_tile 1 0
    3 | 000
    icepack: line 3: tile 1 0: Row
  What to do:
    Give the tile sixteen such rows, directly below its statement. An empty line
    there counts as a row.
";

pub const SAME_COLUMNS: &str = "\
SameColumns, in the two files of words that icebram reads:
  Message: SameColumns FIRST SECOND
  Two columns of FROM are equal: FIRST is the least that a later one equals, and
  SECOND the least such later one. With words of w bits, column s * w + b is bit
  b of the words 256s to 256s + 255.
  Example, 256 words of two digits that are all 0:
    $ ./icestorm icebram zeros.hex zeros.hex </dev/null
    icebram: SameColumns 0 1
  What to do:
    Fill FROM with random words, and make the design with them anew. In a RAM
    equal columns can't be told apart.
";

pub const SETTING: &str = "\
Setting, in a text (.asc):
  The setting doesn't have this value.
  Example:
    1 | .device 1k
    2 | .warmboot on
    icepack: line 2: Setting
  What to do:
    Write enabled or disabled for .warmboot and .nosleep, and low, medium or
    high for .freqrange.
";

pub const SHAPE: &str = "\
Shape, in the two files of words that icebram reads:
  The two files differ in the number of words, or of digits in a word.
  Example, words of two digits and words of eight:
    $ ./icestorm icebram zeros.hex examples/player_1k/steps.hex </dev/null
    icebram: Shape
  What to do:
    Give both files as many words, with as many digits.
";

pub const SHORT: &str = "\
Short, in a boot file that icesplit reads:
  Message: Short n
  The file has n bytes, and the five headers alone have 160.
  Example:
    $ head -c 100 both.boot | ./icestorm icesplit /dev/stdin
    icesplit: Short 100
  What to do:
    Check that the file is a boot file, and that it is whole.
";

pub const STATEMENT: &str = "\
Statement, in a text (.asc):
  The keyword is unknown, the number of words is wrong, a word that should be a
  number isn't one, or .sym has no name.
  Example:
    1 | .device 1k
    2 | .tile 1 1
    icepack: line 2: Statement
  What to do:
    Correct the line. Spaces separate words, and a tab doesn't. A number has one
    to nine decimal digits.

Statement, in a layout file:
  The first word is unknown, the number of words is wrong, a word isn't a
  number, or yes or no, where it should be, or the line comes before the first
  .layout.
  Example:
    1 | mirror no
    icepack: layout line 1: Statement
  What to do:
    Correct the line. .layout and a device come first, and spaces separate
    words. A remark begins with #, and no space stands before it.

Statement, in a pin file (.pcf):
  The line has words, and is neither set_io with a name and a pin nor
  set_frequency.
  Example:
    1 | set_io led A2
    2 | set_location n 1 1 0
    icebox_vlog: pin file line 2: Statement
  What to do:
    Correct the line, or take it out. # begins a remark.
";

pub const STRAY_DATA: &str = "\
StrayData, in a text (.asc):
  The line isn't blank, belongs to no statement, and doesn't begin with a dot.
  Example:
    1 | .device 1k
    2 |
    3 |  0101
    icepack: line 3: StrayData
  What to do:
    Take the line out, or the space before its dot. A tile has sixteen rows, and
    no more. If it is line 1, the file may be a bitstream, which iceunpack
    takes.
";

pub const SYNTAX: &str = "\
Syntax, in a module that vlogrun or vlogsweep runs:
  No form of the subset goes on with this token, or the text ends too early. The
  offset is that of the token, or the length of the text. A token after
  endmodule has it too.
  Example:
    1 | module m (a, y);
    2 |   input a;
    3 |   output y;
    4 |   assign y = !a;
    5 | endmodule
    vlogrun: offset 53: Syntax
  What to do:
    Write the item in a form of the subset. vlogrun runs the modules that
    icebox_vlog writes, and not all of Verilog: other modules need another
    simulator.
";

pub const TILE_KIND: &str = "\
TileKind, in a chip database:
  There is no tile at a link's place, no io tile at a global net's, or no tile
  of that kind at a tile statement's; or COLUMNS and ROWS aren't the kind's
  width and 16.
  Example:
    1 | .device 1k 14 18 5
    2 | .logic_tile 3 1
    icebox_explain: database line 2: TileKind
  What to do:
    Correct the place or the kind. Tiles have 16 rows, and 18 (io), 54 (logic)
    or 42 (RAM) columns.
";

pub const TOO_MANY: &str = "\
TooMany, where icemulti joins images:
  Message: TooMany n
  There are n images, more than 4.
  Example:
    $ ./icestorm icemulti one.bin one.bin one.bin one.bin one.bin
    icemulti: TooMany 5
  What to do:
    Leave some out, or make two boot files.
";

pub const TRUNCATED: &str = "\
Truncated, in a bitstream (.bin):
  The input ends before a wake-up; or the input ends within the payload; or the
  input ends within the data; or the input ends in the two places after data,
  and the byte that is there is 00. The offset is the length of the input.
  Example, bytes in hexadecimal:
    7E AA 99 7E
    iceunpack: offset 4: Truncated
  What to do:
    Copy the file again, or pack it anew: it isn't whole. A bitstream ends with
    a wake-up, 01 06.
";

pub const TWO_DRIVERS: &str = "\
TwoDrivers, in a design (icebox_vlog):
  Message: net N: TwoDrivers
  Two drivers or more drive net N, or nets that are joined with it: two outputs
  would work against each other.
  Example, two buffers that lead to one net, both on:
    $ ./icestorm icebox_vlog ripple.chipdb twice.asc
    icebox_vlog: net 3: TwoDrivers
  What to do:
    Check that the database, the image and the layout belong together: no router
    makes this.
";

pub const UNDECLARED: &str = "\
Undeclared, in a module that vlogrun or vlogsweep runs:
  The name isn't declared above, or is of another sort, such as an output that
  is read; or, at endmodule, an output isn't assigned. The offset is that of the
  name, or of endmodule. A register that a WIRE sets or resets asynchronously,
  and that some wire reads in another way, has it at the place where the item
  assigns it first.
  Example:
    1 | module m (a, y);
    2 |   input a;
    3 |   output y;
    4 |   assign y = b;
    5 | endmodule
    vlogrun: offset 53: Undeclared
  What to do:
    Correct the name, or declare it above the item that uses it. Give each
    output an assign.
";

pub const UNKNOWN_COMMAND: &str = "\
UnknownCommand, in a bitstream (.bin):
  The opcode is 3 or above 9, or it is 0 and the number isn't 1, 3, 5 or 6. The
  offset is that of the command.
  Example, bytes in hexadecimal:
    7E AA 99 7E 01 07
    iceunpack: offset 4: UnknownCommand
  What to do:
    If the file is a boot file, take its images out with icesplit -x. Otherwise
    pack the bitstream anew: a byte there or before it is wrong or missing.
";

pub const VALUE_LENGTH: &str = "\
ValueLength, in a chip database:
  VALUES isn't one 0 or 1 for each bit.
  Example:
    1 | .device 1k 14 18 5
    2 | .routing 1 1 1 B2[0]
    3 | 10 0
    icebox_explain: database line 3: ValueLength
  What to do:
    Write as many digits as the .buffer or .routing above has bits.
";

pub const VALUES_TWICE: &str = "\
ValuesTwice, in a chip database:
  In a .buffer an earlier line has the same VALUES and another SRC.
  Example:
    1 | .device 1k 14 18 5
    2 | .buffer 1 1 1 B2[0]
    3 | 1 0
    4 | 1 2
    icebox_explain: database line 4: ValuesTwice
  What to do:
    Correct one of the two lines: bits of one value choose one net.
";

pub const WIDTH: &str = "\
Width, in a layout file:
  A number of widths is too small: the first has to be 18 or more, that of the
  RAM column 42 or more, and each other 54 or more. Or their sum is more than
  182 (384), 332 (1k) or 872 (8k).
  Example:
    1 | .layout 1k
    2 | widths 17 54 54 42 54 54 54
    icepack: layout line 2: Width
  What to do:
    Give the columns of tiles from the side edge inwards. The RAM column is the
    fourth for a 1k, and the ninth for an 8k; a 384 has none.

Width, in a file of words that icebram reads:
  Message: from line N: Width
  A word has another number of digits than the first, or more than 64.
  Example:
    1 | 2f
    2 | 130
    icebram: from line 2: Width
  What to do:
    Give all words the same number of digits, with zeros in front: 00f for a
    memory of twelve bits.
";

pub const WIRE: &str = "\
Wire, in a list of names for wires:
  The module has no such wire. A port or a register is none.
  Example:
    1 | n_2 lamp
    2 | n_4 clk
    vlogrun: names line 2: Wire
  What to do:
    Take a wire that the module declares as wire, or the list that icebox_vlog
    --names wrote with this module.
";

pub const WIRE_TWICE: &str = "\
WireTwice, in a list of names for wires:
  An earlier line names this wire.
  Example:
    1 | n_2 lamp
    2 | n_2 led
    vlogrun: names line 2: WireTwice
  What to do:
    Take one of the two lines out.
";

/// The words of all causes, a line each.
pub const WORDS: &str = "\
Address
Align
AssignedTwice
BadBank
BadHeight
BadMode
BadRange
BadWidth
BitName
BitRange
Cascade
CellBits
Check
Clock
CommentByte
Coordinates
DataEnd
Depth
Device
Digit
ExtraPlace
Form
header
Hex
image
Images
Kind
Long
LongPayload
Loop
NameTwice
NetRange
NetTwice
NoDevice
NoImage
NoPreamble
NoTile
Number
Order
Package
Pin
PinMode
Place
Pll
PowerOn
Repeat
Repeated
Row
SameColumns
Setting
Shape
Short
Statement
StrayData
Syntax
TileKind
TooMany
Truncated
TwoDrivers
Undeclared
UnknownCommand
ValueLength
ValuesTwice
Width
Wire
WireTwice
";
