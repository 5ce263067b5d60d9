//! The opcodes of this subset of the machine, by the names of their instructions.
//! (The Java Virtual Machine Specification, chapter 6.)

pub const NOP: u8 = 0x00;

pub const ACONST_NULL: u8 = 0x01;

pub const ICONST_M1: u8 = 0x02;

pub const ICONST_0: u8 = 0x03;

pub const ICONST_1: u8 = 0x04;

pub const ICONST_2: u8 = 0x05;

pub const ICONST_3: u8 = 0x06;

pub const ICONST_4: u8 = 0x07;

pub const ICONST_5: u8 = 0x08;

pub const BIPUSH: u8 = 0x10;

pub const SIPUSH: u8 = 0x11;

pub const LDC: u8 = 0x12;

pub const LDC_W: u8 = 0x13;

pub const ILOAD: u8 = 0x15;

pub const ALOAD: u8 = 0x19;

pub const ILOAD_0: u8 = 0x1A;

pub const ILOAD_1: u8 = 0x1B;

pub const ILOAD_2: u8 = 0x1C;

pub const ILOAD_3: u8 = 0x1D;

pub const ALOAD_0: u8 = 0x2A;

pub const ALOAD_1: u8 = 0x2B;

pub const ALOAD_2: u8 = 0x2C;

pub const ALOAD_3: u8 = 0x2D;

pub const IALOAD: u8 = 0x2E;

pub const AALOAD: u8 = 0x32;

pub const BALOAD: u8 = 0x33;

pub const CALOAD: u8 = 0x34;

pub const SALOAD: u8 = 0x35;

pub const ISTORE: u8 = 0x36;

pub const ASTORE: u8 = 0x3A;

pub const ISTORE_0: u8 = 0x3B;

pub const ISTORE_1: u8 = 0x3C;

pub const ISTORE_2: u8 = 0x3D;

pub const ISTORE_3: u8 = 0x3E;

pub const ASTORE_0: u8 = 0x4B;

pub const ASTORE_1: u8 = 0x4C;

pub const ASTORE_2: u8 = 0x4D;

pub const ASTORE_3: u8 = 0x4E;

pub const IASTORE: u8 = 0x4F;

pub const AASTORE: u8 = 0x53;

pub const BASTORE: u8 = 0x54;

pub const CASTORE: u8 = 0x55;

pub const SASTORE: u8 = 0x56;

pub const POP: u8 = 0x57;

pub const POP2: u8 = 0x58;

pub const DUP: u8 = 0x59;

pub const DUP_X1: u8 = 0x5A;

pub const DUP_X2: u8 = 0x5B;

pub const DUP2: u8 = 0x5C;

pub const DUP2_X1: u8 = 0x5D;

pub const DUP2_X2: u8 = 0x5E;

pub const SWAP: u8 = 0x5F;

pub const IADD: u8 = 0x60;

pub const ISUB: u8 = 0x64;

pub const IMUL: u8 = 0x68;

pub const IDIV: u8 = 0x6C;

pub const IREM: u8 = 0x70;

pub const INEG: u8 = 0x74;

pub const ISHL: u8 = 0x78;

pub const ISHR: u8 = 0x7A;

pub const IUSHR: u8 = 0x7C;

pub const IAND: u8 = 0x7E;

pub const IOR: u8 = 0x80;

pub const IXOR: u8 = 0x82;

pub const IINC: u8 = 0x84;

pub const I2B: u8 = 0x91;

pub const I2C: u8 = 0x92;

pub const I2S: u8 = 0x93;

pub const IFEQ: u8 = 0x99;

pub const IFNE: u8 = 0x9A;

pub const IFLT: u8 = 0x9B;

pub const IFGE: u8 = 0x9C;

pub const IFGT: u8 = 0x9D;

pub const IFLE: u8 = 0x9E;

pub const IF_ICMPEQ: u8 = 0x9F;

pub const IF_ICMPNE: u8 = 0xA0;

pub const IF_ICMPLT: u8 = 0xA1;

pub const IF_ICMPGE: u8 = 0xA2;

pub const IF_ICMPGT: u8 = 0xA3;

pub const IF_ICMPLE: u8 = 0xA4;

pub const IF_ACMPEQ: u8 = 0xA5;

pub const IF_ACMPNE: u8 = 0xA6;

pub const GOTO: u8 = 0xA7;

pub const TABLESWITCH: u8 = 0xAA;

pub const LOOKUPSWITCH: u8 = 0xAB;

pub const IRETURN: u8 = 0xAC;

pub const ARETURN: u8 = 0xB0;

pub const RETURN: u8 = 0xB1;

pub const GETSTATIC: u8 = 0xB2;

pub const PUTSTATIC: u8 = 0xB3;

pub const GETFIELD: u8 = 0xB4;

pub const PUTFIELD: u8 = 0xB5;

pub const INVOKEVIRTUAL: u8 = 0xB6;

pub const INVOKESPECIAL: u8 = 0xB7;

pub const INVOKESTATIC: u8 = 0xB8;

pub const INVOKEINTERFACE: u8 = 0xB9;

pub const NEW: u8 = 0xBB;

pub const NEWARRAY: u8 = 0xBC;

pub const ANEWARRAY: u8 = 0xBD;

pub const ARRAYLENGTH: u8 = 0xBE;

pub const ATHROW: u8 = 0xBF;

pub const CHECKCAST: u8 = 0xC0;

pub const INSTANCEOF: u8 = 0xC1;

pub const MONITORENTER: u8 = 0xC2;

pub const MONITOREXIT: u8 = 0xC3;

pub const WIDE: u8 = 0xC4;

pub const IFNULL: u8 = 0xC6;

pub const IFNONNULL: u8 = 0xC7;

pub const GOTO_W: u8 = 0xC8;
